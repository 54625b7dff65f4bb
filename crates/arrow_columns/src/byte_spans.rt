//! The values from a least to a greatest one, told apart by their first bytes.

ghost use Rattle.std.specs.Prelude.{◌≡◌, ◌+◌, ◌-◌, ◌*◌, ◌%◌, ◌^◌, ◌<◌, ◌≤◌, IsTrue, drop, false, length};
ghost use Rattle.std.specs.Prelude.{slice_index, slice_range, take};
ghost use Rattle.std.specs.Bool.{OnTrue};
ghost use Rattle.std.specs.Cmp.Lexicographic.{slice_cmp};
ghost use Rattle.std.specs.Ordering.{is_lt, nat_cmp};
ghost use Rattle.arrow_columns.specs.Words.{AreBytes, IsSpan, NotAbove, Widens, beginning};

/// The values of some rows, from a least to a greatest one. Both begin with the same words of eight
/// bytes, and the number of the eight bytes after these tells most values from them at once.
#[derive(Clone, Copy)]
pub struct ByteSpan<'a> {
    /// The row of the least value.
    pub least: usize,
    /// The row of the greatest value.
    pub greatest: usize,
    /// The least value.
    pub low: &'a [u8],
    /// The greatest value.
    pub high: &'a [u8],
    /// How many words both begin with.
    pub words: usize,
    /// The number of the next eight bytes of the least value, with zeros after its end.
    pub low_word: u64,
    /// The number of the next eight bytes of the greatest value, with zeros after its end.
    pub high_word: u64,
}

/// The numbers whose last eight bytes are full, whose last seven are, and so on.
const RESTS: [u64; 9] = [
    0xffff_ffff_ffff_ffff,
    0x00ff_ffff_ffff_ffff,
    0x0000_ffff_ffff_ffff,
    0x0000_00ff_ffff_ffff,
    0x0000_0000_ffff_ffff,
    0x0000_0000_00ff_ffff,
    0x0000_0000_0000_ffff,
    0x0000_0000_0000_00ff,
    0,
];

impl<'a> ByteSpan<'a> {
    /// The span of one row, whose value is this.
    pub fn of(row: usize, value: &'a [u8]) -> ByteSpan<'a>
        ensures span { IsSpan result }
        ensures values { (result.low.now ≡ value.now) × (result.high.now ≡ value.now) }
        ensures rows { (result.least ≡ row) × (result.greatest ≡ row) }
    {
        ByteSpan::between(row, value, row, value)
    }

    /// The span from the value of one row to that of another, which is not below it.
    fn between(least: usize, low: &'a [u8], greatest: usize, high: &'a [u8]) -> ByteSpan<'a>
        requires { NotAbove low.now high.now }
        ensures span { IsSpan result }
        ensures values { (result.low.now ≡ low.now) × (result.high.now ≡ high.now) }
        ensures rows { (result.least ≡ least) × (result.greatest ≡ greatest) }
    {
        let words = words_alike(low, high);
        ByteSpan {
            least,
            greatest,
            low,
            high,
            words,
            low_word: word_after(words, low),
            high_word: word_after(words, high),
        }
    }

    /// Takes in one more row, whose value is the bytes from `begin` to `stop`.
    #[inline(always)]
    pub fn widen(&mut self, row: usize, bytes: &'a [u8], begin: usize, stop: usize)
        requires order { begin ≤ stop }
        requires within { stop ≤ length bytes.now }
        requires span { IsSpan self.old }
        ensures span { IsSpan self.new }
        ensures widened { Widens (slice_range bytes.now begin stop) row self.old self.new }
    {
        let value = &bytes[begin..stop];
        if !begins_alike(value, self.low, self.words) {
            self.widen_by_all(row, value);
            return;
        }
        let word = word_between(bytes, begin + 8 * self.words, stop);
        if is_below_by_word(value, word, self.low, self.low_word, self.words) {
            self.least = row;
            self.low = value;
            self.low_word = word;
        } else if is_below_by_word(self.high, self.high_word, value, word, self.words) {
            self.greatest = row;
            self.high = value;
            self.high_word = word;
        }
    }

    /// Takes in one more row if it is no null.
    ///
    /// Most values lie inside, which the processor foresees. It does not foresee which rows are null:
    /// with one in eight, a test of each takes half as long again.
    #[inline(always)]
    pub fn widen_if(
        &mut self,
        is_valid: bool,
        row: usize,
        bytes: &'a [u8],
        begin: usize,
        stop: usize,
    )
        requires order { begin ≤ stop }
        requires within { stop ≤ length bytes.now }
        requires span { IsSpan self.old }
        ensures span { IsSpan self.new }
        ensures widened { IsTrue is_valid → Widens (slice_range bytes.now begin stop) row self.old self.new }
        ensures kept { is_valid ≡ false → self.new ≡ self.old }
    {
        if !self.is_inside(bytes, begin, stop) {
            self.widen_outside(is_valid, row, bytes, begin, stop);
        }
    }

    /// The same, by a call, since the compiler would test for a null first.
    #[inline(never)]
    fn widen_outside(
        &mut self,
        is_valid: bool,
        row: usize,
        bytes: &'a [u8],
        begin: usize,
        stop: usize,
    )
        requires order { begin ≤ stop }
        requires within { stop ≤ length bytes.now }
        requires span { IsSpan self.old }
        ensures span { IsSpan self.new }
        ensures widened { IsTrue is_valid → Widens (slice_range bytes.now begin stop) row self.old self.new }
        ensures kept { is_valid ≡ false → self.new ≡ self.old }
    {
        if is_valid {
            self.widen(row, bytes, begin, stop);
        }
    }

    /// Whether the first bytes from `begin` to `stop` tell that these lie between the least and the
    /// greatest value.
    #[inline(always)]
    fn is_inside(&self, bytes: &[u8], begin: usize, stop: usize) -> bool
        requires order { begin ≤ stop }
        requires within { stop ≤ length bytes.now }
        requires span { IsSpan self.now }
        ensures low { OnTrue result (NotAbove self.now.low.now (slice_range bytes.now begin stop)) }
        ensures high { OnTrue result (NotAbove (slice_range bytes.now begin stop) self.now.high.now) }
    {
        let value = &bytes[begin..stop];
        items_are_bytes(value);
        items_are_bytes(self.high);
        if !begins_alike(value, self.low, self.words) {
            return false;
        }
        let word = word_between(bytes, begin + 8 * self.words, stop);
        (self.low_word < word) & (word < self.high_word)
    }

    /// Takes in any value, by all of its bytes.
    #[inline(never)]
    fn widen_by_all(&mut self, row: usize, value: &'a [u8])
        requires { IsSpan self.old }
        ensures span { IsSpan self.new }
        ensures widened { Widens value.now row self.old self.new }
    {
        if is_below(value, self.low) {
            *self = ByteSpan::between(row, value, self.greatest, self.high);
        } else if is_below(self.high, value) {
            *self = ByteSpan::between(self.least, self.low, row, value);
        }
    }
}

/// Does nothing: its contract says that each item of a slice of bytes is below 256.
#[inline(always)]
pub fn items_are_bytes(_bytes: &[u8])
    ensures { AreBytes _bytes.now }
{}

/// Whether one is below the other, byte by byte.
fn is_below(one: &[u8], other: &[u8]) -> bool
    ensures { result ≡ is_lt (slice_cmp nat_cmp one.now other.now) }
{
    one.cmp(other).is_lt()
}

/// Whether one is below the other, if both begin with so many words: by the numbers of the eight
/// bytes after these, and by all bytes only if these are equal.
#[inline(always)]
fn is_below_by_word(one: &[u8], one_word: u64, other: &[u8], other_word: u64, _words: usize) -> bool
    requires alike { take (8 * _words) one.now ≡ take (8 * _words) other.now }
    requires one { one_word ≡ beginning 8 (drop (8 * _words) one.now) }
    requires other { other_word ≡ beginning 8 (drop (8 * _words) other.now) }
    ensures { result ≡ is_lt (slice_cmp nat_cmp one.now other.now) }
{
    items_are_bytes(one);
    items_are_bytes(other);
    if one_word < other_word {
        return true;
    }
    if other_word < one_word {
        return false;
    }
    is_below(one, other)
}

/// How many words of eight bytes both begin with.
fn words_alike(one: &[u8], other: &[u8]) -> usize
    ensures one { 8 * result ≤ length one.now }
    ensures other { 8 * result ≤ length other.now }
    ensures alike { take (8 * result) one.now ≡ take (8 * result) other.now }
{
    let most = one.len().min(other.len()) / 8;
    for k in 0..most {
        if !is_word_alike(one, other, 8 * k) {
            return k;
        }
    }
    most
}

/// Whether the value begins with as many words of the other.
#[inline(always)]
fn begins_alike(value: &[u8], other: &[u8], words: usize) -> bool
    requires { 8 * words ≤ length other.now }
    ensures long { OnTrue result (8 * words ≤ length value.now) }
    ensures alike { OnTrue result (take (8 * words) value.now ≡ take (8 * words) other.now) }
{
    if value.len() / 8 < words {
        return false;
    }
    for k in 0..words {
        if !is_word_alike(value, other, 8 * k) {
            return false;
        }
    }
    true
}

/// Whether both have the same eight bytes from there on.
#[inline(always)]
fn is_word_alike(one: &[u8], other: &[u8], at: usize) -> bool
    requires one { at + 8 ≤ length one.now }
    requires other { at + 8 ≤ length other.now }
    ensures { OnTrue result (take 8 (drop at one.now) ≡ take 8 (drop at other.now)) }
{
    word_at(one, at) == word_at(other, at)
}

/// The number of the eight bytes from there on.
#[inline(always)]
fn word_at(bytes: &[u8], at: usize) -> u64
    requires { at + 8 ≤ length bytes.now }
    ensures { result ≡ beginning 8 (drop at bytes.now) }
{
    u64::from_be_bytes([
        bytes[at],
        bytes[at + 1],
        bytes[at + 2],
        bytes[at + 3],
        bytes[at + 4],
        bytes[at + 5],
        bytes[at + 6],
        bytes[at + 7],
    ])
}

/// The number of the eight bytes after so many words, with zeros after the end.
fn word_after(words: usize, value: &[u8]) -> u64
    requires { 8 * words ≤ length value.now }
    ensures { result ≡ beginning 8 (drop (8 * words) value.now) }
{
    word_between(value, 8 * words, value.len())
}

/// The number of the first eight bytes from `begin` to `stop`, with zeros after the last one.
#[inline(always)]
pub fn word_between(bytes: &[u8], begin: usize, stop: usize) -> u64
    requires order { begin ≤ stop }
    requires within { stop ≤ length bytes.now }
    ensures { result ≡ beginning 8 (slice_range bytes.now begin stop) }
{
    if bytes.len() - begin < 8 {
        return short_word(&bytes[begin..stop]);
    }
    front_of((stop - begin).min(8), word_at(bytes, begin))
}

/// The number of the first eight bytes, with zeros after the last one.
#[cold]
fn short_word(value: &[u8]) -> u64
    ensures { result ≡ beginning 8 value.now }
{
    u64::from_be_bytes([
        byte_or_zero(value, 0),
        byte_or_zero(value, 1),
        byte_or_zero(value, 2),
        byte_or_zero(value, 3),
        byte_or_zero(value, 4),
        byte_or_zero(value, 5),
        byte_or_zero(value, 6),
        byte_or_zero(value, 7),
    ])
}

/// The byte at this place, or 0 past the end.
fn byte_or_zero(value: &[u8], k: usize) -> u8
    ensures { result ≡ slice_index value.now k }
{
    if k < value.len() {
        return value[k];
    }
    0
}

/// The first bytes of a word, so many, with zeros after them.
#[inline(always)]
fn front_of(count: usize, word: u64) -> u64
    requires { count ≤ 8 }
    ensures { result + word % 256 ^ (8 - count) ≡ word }
{
    word - (word & rest_of(count))
}

/// The number whose last bytes, but so many, are full. It is looked up, since the processor does not
/// foresee how long values are: a branch takes a tenth more time.
#[inline(always)]
fn rest_of(count: usize) -> u64
    requires { count ≤ 8 }
    ensures { result + 1 ≡ 256 ^ (8 - count) }
{
    RESTS[count]
}
