//! The calls of a console script.
ghost use Rattle.std.specs.Prelude.{◌≡◌};
ghost use Rattle.lines.specs.Fields.{left};
ghost use Rattle.lines.specs.Calls.{complete, enter as enter_of, withdraw as withdraw_of, opening as OpeningOf, rounds as rounds_of, response as response_of, rounded as rounded_of, task as task_of, call as call_of};

use crate::fields::Fields;
use crate::rules::{Kind, Rule};
use crate::tables::{PairList, pairs};
use crate::words::is;

/// A call of the console.
#[derive(Clone, Copy)]
pub enum Call {
    /// Puts a task at a place.
    Enter {
        place: u8,
        period: u16,
        phase: u16,
        deadline: u8,
        table: PairList,
    },
    /// Empties a place.
    Withdraw {
        place: u8,
    },
    /// Sets the opening table.
    Opening {
        table: PairList,
    },
    /// Sets the rounds.
    Rounds {
        rounds: u8,
    },
    /// Issues the draft.
    Issue,
    /// Reopens the plan.
    Reopen,
    /// Asks for the response of a job.
    Response {
        kind: Kind,
        rule: Rule,
        place: u8,
        index: u32,
    },
    /// Asks for the rounded late weight of a job.
    Rounded {
        rule: Rule,
        place: u8,
        index: u32,
    },
    /// Asks for the late weight of a task in a round.
    Task {
        rule: Rule,
        place: u8,
        round: u32,
    },
    /// Shows the book.
    Show,
}

/// The call, where no field is left.
fn complete(mut fields: Fields, call: Call) -> Option<Call>
    ensures { result ≡ complete (left fields.entry) call }
{
    match fields.next() {
        Some(_) => None,
        None => Some(call),
    }
}

// Stays: each of these readers takes fields of its own, by the one method `read`; a table of fields would say less than the lines do.
/// Reads `enter PLACE PERIOD PHASE DEADLINE TIME:WEIGHT ..`.
fn enter(mut fields: Fields) -> Option<Call>
    ensures { result ≡ enter_of (left fields.entry) }
{
    let place = fields.read()?;
    let period = fields.read()?;
    let phase = fields.read()?;
    let deadline = fields.read()?;
    let table = pairs(fields)?;
    Some(Call::Enter {
        place,
        period,
        phase,
        deadline,
        table,
    })
}

/// Reads `withdraw PLACE`.
fn withdraw(mut fields: Fields) -> Option<Call>
    ensures { result ≡ withdraw_of (left fields.entry) }
{
    let place = fields.read()?;
    complete(fields, Call::Withdraw { place })
}

/// Reads `opening TIME:WEIGHT ..`.
fn opening(fields: Fields) -> Option<Call>
    ensures { result ≡ OpeningOf (left fields.entry) }
{
    let table = pairs(fields)?;
    Some(Call::Opening { table })
}

/// Reads `rounds N`.
fn rounds(mut fields: Fields) -> Option<Call>
    ensures { result ≡ rounds_of (left fields.entry) }
{
    let rounds = fields.read()?;
    complete(fields, Call::Rounds { rounds })
}

/// Reads `response KIND RULE PLACE INDEX`.
fn response(mut fields: Fields) -> Option<Call>
    ensures { result ≡ response_of (left fields.entry) }
{
    let kind = fields.read()?;
    let rule = fields.read()?;
    let place = fields.read()?;
    let index = fields.read()?;
    complete(
        fields,
        Call::Response {
            kind,
            rule,
            place,
            index,
        },
    )
}

/// Reads `rounded RULE PLACE INDEX`.
fn rounded(mut fields: Fields) -> Option<Call>
    ensures { result ≡ rounded_of (left fields.entry) }
{
    let rule = fields.read()?;
    let place = fields.read()?;
    let index = fields.read()?;
    complete(fields, Call::Rounded { rule, place, index })
}

/// Reads `task RULE PLACE ROUND`.
fn task(mut fields: Fields) -> Option<Call>
    ensures { result ≡ task_of (left fields.entry) }
{
    let rule = fields.read()?;
    let place = fields.read()?;
    let round = fields.read()?;
    complete(fields, Call::Task { rule, place, round })
}

/// Reads a call: its first word, and the fields after it.
// Stays: a match over the ten words as byte strings leaves an arm of sixty paths for other words, whose proof did not close.
pub(crate) fn read_call(word: &[u8], fields: Fields) -> Option<Call>
    ensures { result ≡ call_of word.now (left fields.entry) }
{
    if is(word, b"enter") {
        enter(fields)
    } else if is(word, b"withdraw") {
        withdraw(fields)
    } else if is(word, b"opening") {
        opening(fields)
    } else if is(word, b"rounds") {
        rounds(fields)
    } else if is(word, b"issue") {
        complete(fields, Call::Issue)
    } else if is(word, b"reopen") {
        complete(fields, Call::Reopen)
    } else if is(word, b"response") {
        response(fields)
    } else if is(word, b"rounded") {
        rounded(fields)
    } else if is(word, b"task") {
        task(fields)
    } else if is(word, b"show") {
        complete(fields, Call::Show)
    } else {
        None
    }
}
