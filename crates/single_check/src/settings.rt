// Settings, label and widths: what is asked before a sheet is read.
ghost use Rattle.std.specs.Prelude.{◌&&◌, [], ◌∷◌, ◌≡◌, leb, length};
ghost use Rattle.text.specs.Utf8.{between, is_utf8};
ghost use Rattle.reference.specs.Setting.{one_of};
ghost use Rattle.validation.specs.Result.{max_label_bytes, path_bytes, scratch_words};
ghost use Rattle.single_check.specs.Settings.{setting_by, setting_in, EarlyIs, SettledIs};

use definition::limits::{MAX_LABEL_BYTES, PATH_BYTES, SCRATCH_WORDS};
use name_table::read::{KINDS, lent_table};
use scope::name::{Row, one_of};

// How many semantics there are.
pub const SEMANTICS: u32 = 4;

pub fn is_within(high: u32, n: u32) -> bool
    ensures { result ≡ between 1 high n }
{
    1 <= n && n <= high
}

fn are_settings(kind: u32, semantics: u32) -> bool
    ensures { result ≡ (between 1 8 kind && between 1 4 semantics) }
{
    is_within(KINDS, kind) && is_within(SEMANTICS, semantics)
}

fn is_label(label: &[u8]) -> bool
    ensures { result ≡ (leb (length label.now) max_label_bytes && is_utf8 label.now) }
{
    label.len() <= MAX_LABEL_BYTES && text::is_utf8(label)
}

fn is_room(path: usize, scratch: usize) -> bool
    ensures { result ≡ (leb path_bytes path && leb scratch_words scratch) }
{
    PATH_BYTES <= path && SCRATCH_WORDS <= scratch
}

// The refusal of settings, label or widths that is due, or 0. `path` and `scratch` are how many elements the lent buffers have.
pub fn refused_settings(kind: u32, semantics: u32, label: &[u8], path: usize, scratch: usize) -> u32
    ensures { EarlyIs kind semantics label.now path scratch result }
{
    if !are_settings(kind, semantics) {
        return 1;
    }
    if !is_label(label) {
        return 2;
    }
    if is_room(path, scratch) { 0 } else { 3 }
}

// What a check is set to: the names that may be read, whether that is a kind of rule, and whether the semantics is service.
#[derive(Clone, Copy)]
pub struct Setting {
    pub row: Row,
    pub rule_kind: bool,
    pub service: bool,
}

// Invariant, Precondition, OutcomeSelector and CreateSelector are kinds of rules, the others of templates.
fn is_rule_kind(kind: usize) -> bool
    ensures { result ≡ one_of kind (1 ∷ 2 ∷ 5 ∷ 6 ∷ []) }
{
    one_of(kind, &[1, 2, 5, 6])
}

fn setting_of(row: Row, kind: u32, semantics: u32) -> Setting
    ensures { setting_by result ≡ setting_in row kind semantics }
{
    Setting {
        row,
        rule_kind: is_rule_kind(kind as usize),
        service: semantics != 1,
    }
}

// What the name table sets a check to: 37 if it is malformed, 38 if a mark breaks one of its two conditions.
pub fn settle(kind: u32, semantics: u32, table: &[u8]) -> Result<Setting, u32>
    ensures { SettledIs kind semantics table.now result }
{
    let Some((row, sound)) = lent_table(table, kind) else {
        return Err(37);
    };
    if sound {
        return Ok(setting_of(row, kind, semantics));
    }
    Err(38)
}
