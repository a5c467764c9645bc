// Question 3: whether the bytes of a name or text are at most 255, valid UTF-8, and none below 0x20 or 0x7F.
#![tactic(auto)]

ghost use Rattle.std.specs.Prelude.{◌≡◌, true, ◌||◌, ℕ, ◌+◌, ◌-◌, ◌≤◌, ◌<◌, length};
ghost use Rattle.blocks.specs.Name.{well_formed, is_text};
ghost use Rattle.texts.specs.Clear.{Clear};
ghost use Rattle.texts.specs.Triples.{leads, leads3, tail, clear_byte, fits, triple1, Tripled};

// Of a character that was begun: how many bytes must follow, and from where to where the next lies; those behind it lie from 0x80 to
// 0xBF.
#[derive(Clone, Copy)]
struct Left {
    count: usize,
    low: u8,
    high: u8,
    // the next is no ASCII byte
    ghost not_ascii: { 0x80 ≤ low },
}

// Whether a byte is an ASCII byte that may stand in a text.
fn is_clear(b: u8) -> bool
    ensures { result ≡ clear_byte b }
{
    (0x20 <= b) & (b <= 0x7E)
}

// Whether the N bytes from `at` on are. No byte ends the question early, and N is a constant, so that all are compared at once.
fn clear<const N: usize>(s: &[u8], at: usize) -> bool
    requires { at + N ≤ length s.now }
    ensures { result ≡ true → Clear s.now at (at + N) }
{
    let mut all = true;
    for k in at..at + N {
        all &= is_clear(s[k]);
    }
    all
}

// The same for all bytes of eight or more: where it holds, they are well-formed, and a "no" says nothing. The last eight may be asked
// twice. (With `step_by` or `div_ceil` names of 12 to 20 bytes took a fifth to a third longer.)
#[tactic(auto, using(crate::proofs::Characters::clear_well))]
fn clear_long(s: &[u8]) -> bool
    requires { 8 ≤ length s.now }
    ensures { result ≡ true → well_formed s.now ≡ true }
{
    let n = s.len();
    for i in 0..(n - 1) / 8 {
        if !clear::<8>(s, 8 * i) {
            return false;
        }
    }
    clear::<8>(s, n - 8)
}

// The same for fewer.
#[tactic(auto, using(crate::proofs::Characters::clear_well))]
fn clear_short(s: &[u8]) -> bool
    requires { length s.now < 8 }
    ensures { result ≡ true → well_formed s.now ≡ true }
{
    let n = s.len();
    if 4 <= n {
        return clear::<4>(s, 0) & clear::<4>(s, n - 4);
    }
    if 2 <= n {
        return clear::<2>(s, 0) & clear::<2>(s, n - 2);
    }
    n == 0 || is_clear(s[0])
}

// Characters of one to three bytes: the first byte of two or three, of three; whether a byte follows another. (They differ in their bounds
// alone: each has a name for what it asks, which two numbers at its callers would not say.)
fn leads_on(b: u8) -> bool
    ensures { result ≡ leads b }
{
    (0xC2 <= b) & (b <= 0xEF)
}

fn leads_two(b: u8) -> bool
    ensures { result ≡ leads3 b }
{
    (0xE0 <= b) & (b <= 0xEF)
}

fn follows(b: u8) -> bool
    ensures { result ≡ tail b }
{
    (0x80 <= b) & (b <= 0xBF)
}

fn begins(b: u8) -> bool
    ensures { result ≡ (clear_byte b || leads b) }
{
    is_clear(b) | leads_on(b)
}

// Whether a byte b goes with a before it and q before that: a tail while a character is open, which behind 0xE0 and 0xED is not any; else a
// clear byte or the first of another character.
#[tactic(auto, unfolding(crate::specs::Triples::fits))]
fn fits_behind(q: u8, a: u8, b: u8) -> bool
    ensures { result ≡ fits q a b }
{
    let open = leads_on(a) | leads_two(q);
    let high = 0xA0 <= b;
    let wrong = ((a == 0xE0) & !high) | ((a == 0xED) & high);
    ((open & follows(b)) | (!open & begins(b))) & !wrong
}

// Whether the byte behind the two at `at` goes with them.
fn triple(s: &[u8], at: usize) -> bool
    requires { at + 3 ≤ length s.now }
    ensures { result ≡ triple1 s.now at }
{
    fits_behind(s[at], s[at + 1], s[at + 2])
}

// The same for the sixteen from there on. No byte ends the question early, and sixteen is a constant, so that all are compared at once.
// (One form of this and of `clear` would take the test as a closure, with what that requires and ensures: no plainer.)
fn triple_16(s: &[u8], at: usize) -> bool
    requires { at + 18 ≤ length s.now }
    ensures { result ≡ true → Tripled s.now at (at + 16) }
{
    let mut all = true;
    for k in at..at + 16 {
        all &= triple(s, k);
    }
    all
}

// The same for all bytes of 18 or more. The last sixteen may be asked twice.
fn triple_long(s: &[u8]) -> bool
    requires { 18 ≤ length s.now }
    ensures { result ≡ true → Tripled s.now 0 (length s.now - 2) }
{
    let n = s.len();
    for i in 0..(n - 3) / 16 {
        if !triple_16(s, 16 * i) {
            return false;
        }
    }
    triple_16(s, n - 18)
}

// Whether all bytes make characters of one to three bytes: where it holds, they are well-formed, and a "no" says nothing. Short names are
// left to `chars`.
#[tactic(auto, using(crate::proofs::Fitting::triples_well))]
fn triple_all(s: &[u8]) -> bool
    ensures { result ≡ true → well_formed s.now ≡ true }
{
    let n = s.len();
    18 <= n
        && begins(s[0])
        && fits_behind(0x20, s[0], s[1])
        && !leads_on(s[n - 1])
        && !leads_two(s[n - 2])
        && triple_long(s)
}

impl Left {
    ghost use Rattle.std.specs.Prelude.{List, [], ◌∷◌, Some};
    ghost use Rattle.blocks.specs.Utf8.{utf8_char, begun};
    ghost use Rattle.texts.specs.Left.{ranges_of, ranges, form, well, goes};

    // So many tails.
    fn tails(count: usize) -> Left
        ensures { ranges result ≡ ranges_of count 0x80 0xBF }
    {
        Left {
            count,
            low: 0x80,
            high: 0xBF,
        }
    }

    // What a byte from 0x80 on begins.
    #[tactic(auto, using(crate::proofs::Characters::begins))]
    fn begin_long(b: u8) -> Option<Left>
        requires { 0x80 ≤ b }
        ensures { begun utf8_char b ≡ form result }
    {
        match b {
            0xC2..=0xDF => Some(Left::tails(1)),
            0xE0 => Some(Left {
                count: 2,
                low: 0xA0,
                high: 0xBF,
            }),
            0xED => Some(Left {
                count: 2,
                low: 0x80,
                high: 0x9F,
            }),
            0xE1..=0xEF => Some(Left::tails(2)),
            0xF0 => Some(Left {
                count: 3,
                low: 0x90,
                high: 0xBF,
            }),
            0xF1..=0xF3 => Some(Left::tails(3)),
            0xF4 => Some(Left {
                count: 3,
                low: 0x80,
                high: 0x8F,
            }),
            _ => None,
        }
    }

    // What a byte begins that may stand in a text.
    #[tactic(auto, using(crate::proofs::Characters::first_byte))]
    fn begin(b: u8) -> Option<Left>
        ensures { (bs : List ℕ) → well [] (b ∷ bs) ≡ goes result bs }
    {
        if is_clear(b) {
            return Some(Left::tails(0));
        }
        if b < 0x80 {
            return None;
        }
        Left::begin_long(b)
    }

    // What is left behind one byte more; nothing if the byte does not go with what was left.
    #[tactic(auto, using(crate::proofs::Characters::left_next, crate::proofs::Characters::left_never))]
    fn go_on(self, b: u8) -> Option<Left>
        ensures { (bs : List ℕ) → goes (Some self) (b ∷ bs) ≡ goes result bs }
    {
        if self.count == 0 {
            return Left::begin(b);
        }
        if b < self.low || self.high < b {
            return None;
        }
        Some(Left::tails(self.count - 1))
    }
}

// Whether the bytes are characters that may stand in a text, one byte after the other.
fn chars(s: &[u8]) -> bool
    ensures { result ≡ well_formed s.now }
{
    let mut left = Left::tails(0);
    for b in s {
        let Some(next) = left.go_on(*b) else {
            return false;
        };
        left = next;
    }
    left.count == 0
}

// Whether bytes that are not all ASCII are well-formed. Most have characters of at most three bytes: these are asked many at a step.
fn well_formed(s: &[u8]) -> bool
    ensures { result ≡ well_formed s.now }
{
    if triple_all(s) {
        return true;
    }
    chars(s)
}

// Question 3. Most names are ASCII. (The rest gets a part of `s` that is all of it: handing on `s` itself costs all names time.)
#[tactic(auto, unfolding(blocks::specs::Name::is_text))]
pub fn is_text(s: &[u8]) -> bool
    ensures { result ≡ is_text s.now }
{
    let n = s.len();
    if 255 < n {
        return false;
    }
    if 8 <= n {
        if clear_long(s) {
            return true;
        }
        return well_formed(&s[..n]);
    }
    if clear_short(s) {
        return true;
    }
    well_formed(&s[..n])
}
