// Lists the cores of a criterion, and prints what is found.
ghost use Rattle.std.specs.Prelude.{◌≡◌, ◌+◌, ◌*◌, ◌≤◌, true, [], ◌∷◌, ◌++◌, length, vec_len, vec_capacity};
ghost use Rattle.std.specs.List.{flat_map};
ghost use Rattle.console.specs.Reports.{printed, reported, set_lines};
ghost use Rattle.console.specs.Response.{listed as listed_of};
ghost use Rattle.console.specs.Runs.{Two};
ghost use Rattle.console.specs.Text.{core_line};
ghost use Rattle.console.specs.Views.{text_of};

use crate::found::Found;
use crate::line::Line;
use crate::room::RunRoom;
use base::Refusal;
use criterion::{Criterion, GroupedCriterion};
use inquiry::{Answer, Call, replay};

// Adds a line to a text that has room for it.
pub(crate) fn append(text: &mut Vec<u8>, line: &Line)
    requires { vec_len text.old + 128 ≤ vec_capacity text.old }
    ensures text { text.new.items ≡ text.old.items ++ text_of line.now }
    ensures len { vec_len text.new ≤ vec_len text.old + 128 }
    ensures capacity { vec_capacity text.old ≤ vec_capacity text.new }
{
    text.extend_from_slice(line.as_slice()).unwrap();
}

fn append_cores(text: &mut Vec<u8>, cores: &[u32])
    requires { vec_len text.old + 128 * length cores.now ≤ vec_capacity text.old }
    ensures { text.new.items ≡ text.old.items ++ flat_map core_line cores.now }
{
    for core in cores {
        append(text, &Line::core(*core));
    }
}

// Adds the lines of what is found.
pub(crate) fn append_sets(text: &mut Vec<u8>, found: &Found)
    requires { vec_len text.old + 524544 ≤ vec_capacity text.old }
    ensures { text.new.items ≡ text.old.items ++ set_lines found.now.count found.now.common found.now.cores.items }
{
    append(text, &Line::items(found.count));
    append(text, &Line::common(found.common));
    append_cores(text, &found.cores);
}

// Takes the answers of a run together: the first refusal, or what is found.
fn report(
    count: u32,
    common: Result<u32, Refusal>,
    listed: Result<u32, Refusal>,
    mut places: Vec<u32>,
) -> Result<Found, Refusal>
    requires { vec_len places ≤ 4096 }
    ensures { printed result ≡ reported count common listed places.items }
{
    let common = common?;
    let listed = listed?;
    places.truncate(listed as usize);
    Ok(Found {
        count,
        common,
        cores: places,
    })
}

// The answers of a run of two calls, taken apart.
fn taken_apart(mut answers: Vec<Answer>) -> (Result<u32, Refusal>, Result<u32, Refusal>, Vec<u32>)
    requires { Two answers.items }
    ensures { answers.items ≡ Answer.Chosen result.0 ∷ Answer.Listed result.1 result.2 ∷ [] }
{
    let Some(Answer::Listed(listed, places)) = answers.pop() else {
        unreachable!();
    };
    let Some(Answer::Chosen(common)) = answers.pop() else {
        unreachable!();
    };
    (common, listed, places)
}

// Makes the two calls over a criterion.
pub(crate) fn list<C: GroupedCriterion + Drop>(
    criterion: C,
    room: RunRoom,
) -> Result<Found, Refusal>
    requires { (C.Criterion.meaning criterion).order ≡ true }
    ensures { printed result ≡ listed_of (C.Criterion.meaning criterion) }
{
    let count = criterion.count();
    let RunRoom {
        places,
        mut calls,
        answers,
    } = room;
    calls.push_reserved(Call::Common);
    calls.push_reserved(Call::List(places));
    let Ok((_criterion, answers)) = replay(criterion, calls, answers) else {
        unreachable!();
    };
    let (common, listed, places) = taken_apart(answers);
    report(count, common, listed, places)
}
