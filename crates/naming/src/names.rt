// Grounds 15 and 16, of a list of names.
ghost use Rattle.std.specs.Prelude.{◌≡◌, [], ◌∷◌};
ghost use Rattle.file.specs.Rules.Results.{number_in};
ghost use Rattle.file.specs.Inner.Typed.{name_in_lem};
ghost use Rattle.file.specs.Inner.Refusals.{outcome_of};
ghost use Rattle.naming.specs.Rules.RunGrounds.{unfit_name, start_ground};

use file::held::NAME_VALUES;
use file::types::{LogicalName, Refusal};

// Ground 15, of one name.
fn is_unfit_name(name: LogicalName) -> bool
    ensures { result ≡ unfit_name (name_in_lem name ∷ []) }
{
    name == LogicalName::BROADCAST || name == LogicalName::UNNAMED
}

// Both grounds in one loop without an exit, from the last name to the first: which names there are, and whether one is there twice.
fn marked_ground(names: &[u8]) -> Result<(), Refusal>
    ensures { number_in (outcome_of result) ≡ start_ground names.now }
{
    let mut seen = [false; NAME_VALUES];
    let mut twice = false;
    for i in (0..names.len()).rev() {
        let mark = names[i] as usize;
        if seen[mark] {
            twice = true;
        }
        seen[mark] = true;
    }
    if seen[LogicalName::BROADCAST.0 as usize] {
        return Err(Refusal::ListedName);
    }
    if seen[LogicalName::UNNAMED.0 as usize] {
        return Err(Refusal::ListedName);
    }
    if twice {
        return Err(Refusal::NameTwice);
    }
    Ok(())
}

// A list of names is accepted, or refused by its ground. One name needs no marks.
pub fn names_ground(names: &[u8]) -> Result<(), Refusal>
    ensures { number_in (outcome_of result) ≡ start_ground names.now }
{
    if names.len() != 1 {
        return marked_ground(names);
    }
    if is_unfit_name(LogicalName::new(names[0])) {
        return Err(Refusal::ListedName);
    }
    Ok(())
}
