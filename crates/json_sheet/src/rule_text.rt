// A rule's own object, and its sheet.
ghost use Rattle.std.specs.Prelude.{◌≤◌, length};
ghost use Rattle.json_sheet.specs.RuleAt.{OptionalIs, LaysLength, LaysOptional, LaysHead, FrontLaid, RuleMemberIs, PartsAre, RuleTextIs};

use crate::condition::read_condition;
use crate::key::read_place;
use buffer::lay::{lay, lay_byte, lay_decimal};
use json_text::between::{Separator, read_separator};
use json_text::string::read_string;
use json_text::token::{behind_spaces, is_spelled};
use json_text::unescape::lay_text;
use text::starts_with;

// Where the condition is laid: the longest head of a rule fits in front of it.
const FRONT_ROOM: usize = 1060;

// How deep what the rule's own object holds may nest.
const HELD_DEPTH: usize = 1023;

// No text of a sheet is longer.
const MAX_TEXT: usize = 512;

// A member of a rule's own object.
#[derive(Clone, Copy)]
pub struct RuleMember {
    // Which one it is: 1 name, 2 assert, 3 message.
    pub kind: usize,
    // Where its text begins, 0 where it is null; the end of the entries of a condition.
    pub place: usize,
    // How long its text is, 0 where it has none.
    pub len: usize,
    // The place after it.
    pub next: usize,
}

// What is kept of all members.
#[derive(Clone, Copy)]
pub struct RuleMembers {
    // The place after the bracket.
    pub next: usize,
    // The end of the condition's entries.
    pub end: usize,
    // Where the name begins, 0 where it is absent, and how long it is.
    pub name: usize,
    pub name_len: usize,
    // The same of the message.
    pub message: usize,
    pub message_len: usize,
}

// What is read of a text.
#[derive(Clone, Copy)]
pub enum RuleRead {
    // Where its sheet lies.
    Good(usize, usize),
    // Its name or its message is over the limit.
    Long,
    // It is no rule.
    Bad,
}

// A string or null: where the text begins, behind its quotation mark, and its length, both 0 where it is null; and the place after it.
fn read_optional(s: &[u8], at: usize) -> Option<(usize, usize, usize)>
    ensures { OptionalIs s.now at result }
{
    if starts_with(s, at, b'"') {
        let (len, next) = read_string(s, at + 1)?;
        return Some((at + 1, len, next));
    }
    if starts_with(s, at, b'n') {
        if is_spelled(s, at + 1, b"ull") {
            return Some((0, 0, at + 4));
        }
        return None;
    }
    None
}

fn read_rule_member(s: &[u8], at: usize, out: &mut [u8]) -> Option<RuleMember>
    ensures { RuleMemberIs s.now at out.old out.new result }
{
    let (kind, next) = read_place(s, at, b"name", b"assert", b"message")?;
    if kind == 0 {
        return None;
    }
    if kind == 2 {
        let (behind, end) = read_condition(s, next, HELD_DEPTH, out, FRONT_ROOM)?;
        return Some(RuleMember {
            kind: 2,
            place: end,
            len: 0,
            next: behind,
        });
    }
    let (place, len, behind) = read_optional(s, next)?;
    Some(RuleMember {
        kind,
        place,
        len,
        next: behind,
    })
}

// Each member once, from behind the opening bracket on; by its number, what is kept of it.
fn read_rule_members(s: &[u8], at: usize, out: &mut [u8]) -> Option<RuleMembers>
    requires { at ≤ length s.now }
    ensures { PartsAre s.now at out.old out.new result }
{
    let mut seen = [0usize; 4];
    let mut first = [0usize; 4];
    let mut second = [0usize; 4];
    let mut i = behind_spaces(s, at);
    loop {
        let member = read_rule_member(s, i, out)?;
        let kind = member.kind;
        if seen[kind] != 0 {
            return None;
        }
        seen[kind] = 1;
        first[kind] = member.place;
        second[kind] = member.len;
        match read_separator(s, member.next, b'}')? {
            Separator::More(place) => {
                i = place;
            }
            Separator::End(place) => {
                if seen[2] == 0 {
                    return None;
                }
                return Some(RuleMembers {
                    next: place,
                    end: first[2],
                    name: first[1],
                    name_len: second[1],
                    message: first[3],
                    message_len: second[3],
                });
            }
        }
    }
}

// The length of a text, `-` where it is absent.
fn lay_length(place: usize, len: usize, out: &mut [u8], o: usize) -> usize
    ensures { LaysLength place len out.old out.new o result }
{
    if place == 0 {
        return lay(out, o, b",-");
    }
    let a = lay_byte(out, o, b',');
    lay_decimal(out, a, len)
}

fn lay_optional(s: &[u8], place: usize, out: &mut [u8], o: usize) -> usize
    ensures { LaysOptional s.now place out.old out.new o result }
{
    if place == 0 {
        return o;
    }
    if s.len() < place {
        return o;
    }
    lay_text(s, place, out, o)
}

fn lay_rule_head(s: &[u8], name: usize, n: usize, message: usize, m: usize, out: &mut [u8]) -> usize
    ensures { LaysHead s.now name n message m out.old out.new result }
{
    let a = lay_byte(out, 0, b'R');
    let b = lay_length(name, n, out, a);
    let c = lay_length(message, m, out, b);
    let d = lay_byte(out, c, b',');
    let e = lay_optional(s, name, out, d);
    let f = lay_optional(s, message, out, e);
    lay_byte(out, f, 10)
}

// The head of a rule, laid so that it ends where the condition begins; where it begins is returned.
fn lay_front(s: &[u8], name: usize, n: usize, message: usize, m: usize, out: &mut [u8]) -> usize
    ensures { FrontLaid s.now name n message m out.old out.new result }
{
    let mut head = [0u8; FRONT_ROOM];
    let size = lay_rule_head(s, name, n, message, m, &mut head);
    if FRONT_ROOM < size {
        return FRONT_ROOM;
    }
    let start = FRONT_ROOM - size;
    lay(out, start, &head[0..size]);
    start
}

// White space, the object, white space and the end.
pub fn read_rule_text(s: &[u8], out: &mut [u8]) -> RuleRead
    ensures { RuleTextIs s.now out.old out.new result }
{
    let i = behind_spaces(s, 0);
    if starts_with(s, i, b'{') {
        let Some(read) = read_rule_members(s, i + 1, out) else {
            return RuleRead::Bad;
        };
        if behind_spaces(s, read.next) < s.len() {
            return RuleRead::Bad;
        }
        if MAX_TEXT < read.name_len {
            return RuleRead::Long;
        }
        if MAX_TEXT < read.message_len {
            return RuleRead::Long;
        }
        let start = lay_front(
            s,
            read.name,
            read.name_len,
            read.message,
            read.message_len,
            out,
        );
        return RuleRead::Good(start, read.end);
    }
    RuleRead::Bad
}
