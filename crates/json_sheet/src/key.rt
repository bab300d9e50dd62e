// Names of members, each with its colon, and which of the names that are looked for they are.
ghost use Rattle.std.specs.Prelude.{[], ◌∷◌, ◌≡◌, ◌≤◌, length};
ghost use Rattle.json_rule.specs.Shape.{operator_of, place_in};
ghost use Rattle.json_sheet.specs.Places.{word_bytes, NameIs, ChoiceIs};

use json_text::between::read_key;
use json_text::unescape::lay_text;
use text::order::same_bytes;

// No name that is looked for is longer.
const WORD_BYTES: usize = 12;

// A name, laid into a word if it fits: how long it is, and the place of its value.
fn read_name(s: &[u8], at: usize, word: &mut [u8]) -> Option<(usize, usize)>
    ensures { NameIs s.now at word.old word.new result }
{
    let (len, next) = read_key(s, at)?;
    lay_text(s, at + 1, word, 0);
    Some((len, next))
}

fn operator_of_2(word: &[u8]) -> usize
    requires { length word.now ≡ 2 }
    ensures { result ≡ operator_of word.now }
{
    if same_bytes(word, b"eq") {
        return 8;
    }
    if same_bytes(word, b"ne") {
        return 9;
    }
    if same_bytes(word, b"gt") {
        return 10;
    }
    if same_bytes(word, b"lt") {
        return 12;
    }
    if same_bytes(word, b"in") {
        return 14;
    }
    0
}

fn operator_of_3(word: &[u8]) -> usize
    requires { length word.now ≡ 3 }
    ensures { result ≡ operator_of word.now }
{
    if same_bytes(word, b"all") {
        return 2;
    }
    if same_bytes(word, b"any") {
        return 3;
    }
    if same_bytes(word, b"not") {
        return 4;
    }
    if same_bytes(word, b"gte") {
        return 11;
    }
    if same_bytes(word, b"lte") {
        return 13;
    }
    0
}

fn operator_of_6(word: &[u8]) -> usize
    requires { length word.now ≡ 6 }
    ensures { result ≡ operator_of word.now }
{
    if same_bytes(word, b"exists") {
        return 5;
    }
    if same_bytes(word, b"before") {
        return 6;
    }
    if same_bytes(word, b"truthy") {
        return 19;
    }
    0
}

// `literal` is the name of no member: what is read behind it is refused.
fn operator_of_7(word: &[u8]) -> usize
    requires { length word.now ≡ 7 }
    ensures { result ≡ operator_of word.now }
{
    if same_bytes(word, b"literal") {
        return 1;
    }
    if same_bytes(word, b"compare") {
        return 18;
    }
    if same_bytes(word, b"for_all") {
        return 20;
    }
    if same_bytes(word, b"for_any") {
        return 21;
    }
    0
}

// Those whose length few share.
fn operator_of_other(word: &[u8]) -> usize
    requires { (length word.now ≡ 2 → ⊥) × (length word.now ≡ 3 → ⊥) × (length word.now ≡ 6 → ⊥) × (length word.now ≡ 7 → ⊥) }
    ensures { result ≡ operator_of word.now }
{
    if same_bytes(word, b"after") {
        return 7;
    }
    if same_bytes(word, b"contains") {
        return 15;
    }
    if same_bytes(word, b"starts_with") {
        return 16;
    }
    if same_bytes(word, b"ends_with") {
        return 17;
    }
    0
}

// By its length first, which leaves few to compare with.
fn operator_of(word: &[u8]) -> usize
    ensures { result ≡ operator_of word.now }
{
    let n = word.len();
    if n == 2 {
        return operator_of_2(word);
    }
    if n == 3 {
        return operator_of_3(word);
    }
    if n == 6 {
        return operator_of_6(word);
    }
    if n == 7 {
        return operator_of_7(word);
    }
    operator_of_other(word)
}

// The operator that a member names: its number, 0 where it is none, and the place of the value.
pub fn read_operator(s: &[u8], at: usize) -> Option<(usize, usize)>
    ensures { ChoiceIs operator_of s.now at result }
{
    let mut word = [0u8; WORD_BYTES];
    let (len, next) = read_name(s, at, &mut word)?;
    if WORD_BYTES < len {
        return Some((0, next));
    }
    Some((operator_of(&word[0..len]), next))
}

fn place_of(word: &[u8], first: &[u8], second: &[u8], third: &[u8]) -> usize
    ensures { result ≡ place_in 1 word.now (first.now ∷ second.now ∷ third.now ∷ []) }
{
    if same_bytes(word, first) {
        return 1;
    }
    if same_bytes(word, second) {
        return 2;
    }
    if same_bytes(word, third) {
        return 3;
    }
    0
}

// Which of three names a member has: its number, 0 where it is none of them, and the place of the value.
pub fn read_place(
    s: &[u8],
    at: usize,
    first: &[u8],
    second: &[u8],
    third: &[u8],
) -> Option<(usize, usize)>
    requires { (length first.now ≤ word_bytes) × (length second.now ≤ word_bytes) × (length third.now ≤ word_bytes) }
    ensures { ChoiceIs (λ t. place_in 1 t (first.now ∷ second.now ∷ third.now ∷ [])) s.now at result }
{
    let mut word = [0u8; WORD_BYTES];
    let (len, next) = read_name(s, at, &mut word)?;
    if WORD_BYTES < len {
        return Some((0, next));
    }
    Some((place_of(&word[0..len], first, second, third), next))
}
