// The parts of every kind of block as digits of its row, and back from a digit to the part.
// Kinds, digits and rows stay numbers: the grammar has kinds by ranges of the format's numbers, and the rows go on into the table of node
// kinds (ir_nodes), which document 01 names.
#![tactic(auto)]

ghost use Rattle.std.specs.Prelude.{◌≡◌, ◌≤◌, ◌<◌};
ghost use Rattle.blocks.specs.Grammar.{grammar, find_row, parts_of};
ghost use Rattle.ir_nodes.specs.Codes.{part_of, row_of};

use blocks::Part;

// The digits of the parts, of base 32.
const TEXT: u64 = ir_nodes::TEXT as u64;

const KEY: u64 = 2;

const NUMBER: u64 = ir_nodes::NUMBER as u64;

const FLAG: u64 = 4;

const SIZE: u64 = 5;

const OPT_NUMBER: u64 = 6;

const OPT_TEXT: u64 = ir_nodes::OPT_TEXT as u64;

const LITERAL: u64 = 8;

const TYPE: u64 = 9;

const REFERENCES: u64 = 10;

const EXPRESSION: u64 = 11;

const NODE: u64 = ir_nodes::NODE as u64;

const RUN_VALUES: u64 = 13;

const OPT_NODE: u64 = ir_nodes::OPT_NODE as u64;

const FIELDS: u64 = 15;

const VARIANTS: u64 = 16;

const SIZED_VARIANTS: u64 = 17;

const PARAMETERS: u64 = 18;

const CASES: u64 = ir_nodes::CASES as u64;

const ARGUMENTS: u64 = ir_nodes::ARGUMENTS as u64;

const OWNERS: u64 = 21;

const TYPES: u64 = 22;

const TREES: u64 = 23;

const SEGMENTS: u64 = 24;

const PATHS: u64 = 25;

const VALUES: u64 = 26;

// A row has a digit for each part, the first lowest. What every type begins with, and the place of the digit behind it.
const HEAD: u64 = KEY + 32 * SIZE + 1024 * NUMBER + 32768 * REFERENCES;

const BEHIND: u64 = 1048576;

const FIELDED: u64 = HEAD + BEHIND * FIELDS;

const ENUM: u64 = HEAD + BEHIND * (EXPRESSION + 32 * VARIANTS);

const ARRAY: u64 = HEAD + BEHIND * (FLAG + 32 * TYPE + 1024 * EXPRESSION);

const SIZED_UNION: u64 = HEAD + BEHIND * SIZED_VARIANTS;

const TYPE_REF: u64 = HEAD + BEHIND * TEXT;

const FIELD: u64 = TEXT + 32 * OPT_NUMBER + 1024 * TYPE;

const VARIANT: u64 = TEXT + 32 * NUMBER + 1024 * TYPE;

const OWNER: u64 = KEY + 32 * PATHS;

const BINARY: u64 = EXPRESSION + 32 * EXPRESSION;

const TREE: u64 = KEY + 32 * NUMBER + 1024 * NODE + 32768 * PARAMETERS;

const PARAMETER: u64 = TEXT + 32 * OPT_TEXT + 1024 * FLAG;

const CASE: u64 = NUMBER + 32 * NODE + 1024 * PARAMETERS;

const ARGUMENT: u64 = TEXT + 32 * TEXT;

const RUN: u64 = TEXT + 32 * NUMBER + 1024 * RUN_VALUES;

// The tables are matches, not arrays: the compiled code makes an array anew wherever it is indexed.

// Types, and what they hold.
#[tactic(auto, unfolding(blocks::specs::Grammar::grammar, blocks::specs::Grammar::find_row, ir_nodes::specs::Codes::row_of))]
fn type_row(kind: usize) -> u64
    requires { kind < 64 }
    ensures { result ≡ row_of (find_row kind grammar) }
{
    match kind {
        // primitive
        1 => HEAD,
        // struct, union
        2 | 3 => FIELDED,
        // enum
        4 => ENUM,
        // array
        5 => ARRAY,
        // size-discriminated union
        6 => SIZED_UNION,
        // type reference
        7 => TYPE_REF,
        // references
        32 => OWNERS,
        // field
        33 => FIELD,
        // enum variant, sized variant
        34 | 35 => VARIANT,
        // type set
        36 => TYPES,
        // owner
        37 => OWNER,
        _ => 0,
    }
}

// Expressions.
#[tactic(auto, unfolding(blocks::specs::Grammar::grammar, blocks::specs::Grammar::find_row, ir_nodes::specs::Codes::row_of))]
fn expression_row(kind: usize) -> u64
    requires { (64 ≤ kind) × (kind < 128) }
    ensures { result ≡ row_of (find_row kind grammar) }
{
    match kind {
        // literal
        64 => LITERAL,
        // field reference
        65 => SEGMENTS,
        // a name
        66 | 67 => TEXT,
        // two expressions, or one
        68..=78 => BINARY,
        79..=82 => EXPRESSION,
        83..=91 => BINARY,
        _ => 0,
    }
}

// Layouts without their nodes, values and runs.
#[tactic(auto, unfolding(blocks::specs::Grammar::grammar, blocks::specs::Grammar::find_row, ir_nodes::specs::Codes::row_of))]
fn layout_row(kind: usize) -> u64
    requires { 144 < kind }
    ensures { result ≡ row_of (find_row kind grammar) }
{
    match kind {
        // layout
        160 => TREES,
        // type tree
        161 => TREE,
        // parameter
        162 => PARAMETER,
        // case
        163 => CASE,
        // argument
        164 => ARGUMENT,
        // values
        192 => VALUES,
        // run
        193 => RUN,
        _ => 0,
    }
}

// The row of a kind; 0 where there is no such kind.
#[tactic(auto, unfolding(blocks::specs::Grammar::parts_of))]
pub fn row(kind: usize) -> u64
    ensures { result ≡ row_of (parts_of kind) }
{
    if kind < 64 {
        return type_row(kind);
    }
    if kind < 128 {
        return expression_row(kind);
    }
    if 144 < kind {
        return layout_row(kind);
    }
    ir_nodes::node_row(kind)
}

// The part of a digit.
#[tactic(auto, unfolding(ir_nodes::specs::Codes::part_of))]
pub fn part_of(digit: u64) -> Part
    ensures { result ≡ part_of digit }
{
    match digit {
        KEY => Part::Key,
        NUMBER => Part::Number,
        FLAG => Part::Flag,
        SIZE => Part::Size,
        OPT_NUMBER => Part::OptNumber,
        OPT_TEXT => Part::OptText,
        LITERAL => Part::Literal,
        TYPE => Part::Block(1, 7),
        REFERENCES => Part::Block(32, 32),
        EXPRESSION => Part::Block(64, 91),
        NODE => Part::Block(128, 144),
        RUN_VALUES => Part::Block(192, 192),
        OPT_NODE => Part::OptBlock(128, 144),
        FIELDS => Part::Blocks(33, 33, 64),
        VARIANTS => Part::Blocks(34, 34, 64),
        SIZED_VARIANTS => Part::Blocks(35, 35, 64),
        PARAMETERS => Part::Blocks(162, 162, 512),
        CASES => Part::Blocks(163, 163, 64),
        ARGUMENTS => Part::Blocks(164, 164, 512),
        OWNERS => Part::Ascending(37, 37, 64),
        TYPES => Part::Distinct(1, 7, 256),
        TREES => Part::Distinct(161, 161, 256),
        SEGMENTS => Part::Names(64),
        PATHS => Part::Paths(64),
        VALUES => Part::Values(512),
        _ => Part::Text,
    }
}
