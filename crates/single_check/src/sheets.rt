// One rule sheet under a schema that has been read into the scratch.
ghost use Rattle.std.specs.Prelude.{◌≡◌, ◌≤◌, length};
ghost use Rattle.definition.specs.Limits.{max_rule_entries};
ghost use Rattle.single_check.specs.Settings.{setting_by};
ghost use Rattle.single_check.specs.Sheets.{is_let_in, SheetChecked};

use crate::answer::answer;
use crate::outcome::{Outcome, refused};
use crate::settings::Setting;
use rule::read_rule;
use schema::read::Schema;

// Which rule sheets an entry takes.
#[derive(Clone, Copy)]
pub enum Takes {
    Any,
    Rules,
    Templates,
}

fn is_let_in(takes: Takes, template: bool) -> bool
    ensures { result ≡ is_let_in takes template }
{
    match takes {
        Takes::Any => true,
        Takes::Rules => !template,
        Takes::Templates => template,
    }
}

// Checks a sheet by what reading the schema answered: 4 if that was not well formed, then 5, then the check list. The schema's words stay as they are, for the next sheet.
pub fn check_sheet(
    takes: Takes,
    setting: Setting,
    label: &[u8],
    schema: &[u8],
    read: Option<Schema>,
    rule: &[u8],
    path: &mut [u8],
    scratch: &mut [u32],
) -> Outcome
    requires { max_rule_entries ≤ length scratch.old }
    ensures { SheetChecked takes (setting_by setting) label.now schema.now read rule.now path.old path.new scratch.old scratch.new result }
{
    let Some(s) = read else {
        return refused(4);
    };
    let Some(r) = read_rule(rule, scratch) else {
        return refused(5);
    };
    if is_let_in(takes, r.is_template) {
        return answer(setting, label, schema, rule, s, scratch, path);
    }
    refused(5)
}
