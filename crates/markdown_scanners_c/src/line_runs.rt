//! Runs of calls on a line start.
ghost use Rattle.std.specs.Prelude.{◌≡◌, ◌↔◌, ◌⊎◌, ◌≤◌, ◌<◌, true, false, drop, length, map, take};
ghost use Rattle.std.specs.List.{list_all};
ghost use Rattle.markdown_scanners_tree.specs.line.KnownBreaks.{AreTrueBreaks};
ghost use Rattle.markdown_scanners_tree.specs.line.State.{IsLineState};
ghost use Rattle.markdown_scanners_tree.specs.line.run.PlainRun.{plain_run};
ghost use Rattle.markdown_scanners_tree.specs.line.run.StateRun.{state_run};
ghost use Rattle.markdown_scanners_c.specs.LineRuns.{CanRun, IsFront, IsLineRun, IsRun, IsRunTo, AreAnswers, MakesList, answer_of, calls_before_list, is_known, line_call, no_run, run_at, stop_status};
ghost use Rattle.markdown_scanners_c.specs.LineStarts.{IsNext, IsTrueStart, state_on};
ghost use Rattle.markdown_scanners_c.specs.Status.{ok, bad_kind, bad_state, too_short};
ghost use Rattle.markdown_scanners_c.specs.private.SureRun.{IsMadeTo, IsSure};

use crate::line_starts::Start;
use crate::status::{BAD_KIND, BAD_STATE, OK, SPACE_PENDING, TOO_LARGE, TOO_SHORT};
use markdown_scanners_tree::line::{KnownBreaks, LineAnswer, LineCall, LineStart, LineStop};

/// `struct mds_line_call` of C: a call on a line start, and its number.
#[repr(C)]
#[derive(Clone, Copy)]
pub struct Call {
    pub kind: u32,
    pub number: usize,
}

/// `struct mds_line_answer` of C: the answer of such a call.
#[repr(C)]
#[derive(Clone, Copy)]
pub struct Answer {
    pub found: bool,
    pub delimiter: u8,
    pub start: u64,
    pub number: usize,
}

/// `struct mds_line_run` of C: how many calls a run made.
#[repr(C)]
pub struct LineEnds {
    pub status: u32,
    pub count: usize,
}

// A run with this status and no answers.
fn no_run(status: u32) -> LineEnds
    ensures { result ≡ no_run status }
{
    LineEnds { status, count: 0 }
}

/// Makes calls in turn from a line start on, and writes their answers. (CommonMark 0.31.2, section
/// 2.2)
#[unsafe(no_mangle)]
pub extern "C" fn mds_run_line(
    bytes: &[u8],
    start: &mut Start,
    calls: &[Call],
    answers: &mut [Answer],
) -> LineEnds
    // Why no call is made.
    ensures state { ¬ IsLineState (state_on bytes.now start.old) → result ≡ no_run bad_state }
    ensures kind { IsLineState (state_on bytes.now start.old)
        → list_all is_known calls.now ≡ false → result ≡ no_run bad_kind }
    ensures short { IsLineState (state_on bytes.now start.old)
        → list_all is_known calls.now ≡ true → length answers.old < length calls.now
        → result ≡ no_run too_short }
    ensures refused { ¬ CanRun bytes.now start.old calls.now answers.old
        → (start.new ≡ start.old) × (answers.new ≡ answers.old) }

    // Where what is known of the line is true.
    ensures run { CanRun bytes.now start.old calls.now answers.old → IsTrueStart bytes.now start.old
        → IsRun bytes.now (run_at bytes.now start.old calls.now)
        start.new answers.old answers.new result }

    // Whatever is known: all of a run that makes no MDS_LIST, and a run up to its first.
    ensures without_list { CanRun bytes.now start.old calls.now answers.old
        → ¬ MakesList calls.now (run_at bytes.now start.old calls.now)
        → IsRun bytes.now (run_at bytes.now start.old calls.now)
        start.new answers.old answers.new result }
    ensures up_to_list { CanRun bytes.now start.old calls.now answers.old
        → MakesList calls.now (run_at bytes.now start.old calls.now)
        → IsRunTo (calls_before_list calls.now) (run_at bytes.now start.old calls.now)
        answers.new result }
    ensures ended { CanRun bytes.now start.old calls.now answers.old
        → ((result.status ≡ ok) ↔ (result.count ≡ length calls.now)) }

    // From the front of a line the tab law holds.
    ensures front { CanRun bytes.now start.old calls.now answers.old → IsFront start.old
        → IsLineRun bytes.now (plain_run bytes.now (map line_call calls.now))
        start.new answers.old answers.new result }

    // In every state.
    ensures next { IsLineState (state_on bytes.now start.old)
        → IsNext bytes.now start.old start.new }
    ensures room { result.count ≤ length calls.now }
    ensures kept { drop result.count answers.new ≡ drop result.count answers.old }
{
    let Some(mut line) = start.on(bytes) else {
        return no_run(BAD_STATE);
    };
    if !are_known(calls) {
        return no_run(BAD_KIND);
    }
    if answers.len() < calls.len() {
        return no_run(TOO_SHORT);
    }
    let mut breaks = start.breaks();
    let ends = made_run(&mut line, &mut breaks, calls, answers);
    start.keep(&line);
    start.learn(&breaks);
    ends
}

// Whether each call has a kind that there is.
fn are_known(calls: &[Call]) -> bool
    ensures { result ≡ list_all is_known calls.now }
{
    calls.iter().all(|call| call.kind < 6)
}

// Makes the calls, and writes the answer of each.
fn made_run(
    line: &mut LineStart,
    breaks: &mut KnownBreaks,
    calls: &[Call],
    answers: &mut [Answer],
) -> LineEnds
    requires { length calls.now ≤ length answers.old }

    // Where what is known is true of the line from the offset on, and up to the first MDS_LIST.
    ensures returned { IsSure line.old breaks.old calls.now result.count
        → AreAnswers (state_run line.old breaks.old (map line_call calls.now)).answers
        (state_run line.old breaks.old (map line_call calls.now)).stop
        answers.old answers.new result }
    ensures state { IsSure line.old breaks.old calls.now result.count
        → line.new ≡ (state_run line.old breaks.old (map line_call calls.now)).state }
    ensures known { IsSure line.old breaks.old calls.now result.count
        → breaks.new ≡ (state_run line.old breaks.old (map line_call calls.now)).known }
    ensures truth { AreTrueBreaks line.old.bytes breaks.old line.old.offset
        → AreTrueBreaks line.new.bytes breaks.new line.new.offset }

    // Whatever is known.
    ensures up_to_list { calls_before_list calls.now < result.count
        → IsMadeTo (calls_before_list calls.now)
        (state_run line.old breaks.old (map line_call calls.now)) answers.new }
    ensures ended { (result.status ≡ ok) ↔ (result.count ≡ length calls.now) }
    ensures bytes { line.new.bytes ≡ line.old.bytes }
    ensures forward { line.old.offset ≤ line.new.offset }
    ensures room { result.count ≤ length calls.now }
    ensures kept { drop result.count answers.new ≡ drop result.count answers.old }
{
    for (index, call) in calls.iter().enumerate() {
        match line.call_with_breaks(&line_call(*call), breaks) {
            Ok(answer) => answers[index] = answer_of(&answer),
            Err(reason) => {
                return LineEnds {
                    status: status_of(&reason),
                    count: index,
                };
            }
        }
    }
    LineEnds {
        status: OK,
        count: calls.len(),
    }
}

// The call that the numbers of C name.
fn line_call(call: Call) -> LineCall
    ensures { result ≡ line_call call }
{
    match call.kind {
        0 => LineCall::Space(call.number),
        1 => LineCall::Upto(call.number),
        2 => LineCall::Eol,
        3 => LineCall::Quote,
        4 => LineCall::List(call.number),
        _ => LineCall::Definition(call.number),
    }
}

// An answer as C has it.
fn answer_of(answer: &LineAnswer) -> Answer
    ensures { result ≡ answer_of answer.now }
{
    let none = Answer {
        found: false,
        delimiter: 0,
        start: 0,
        number: 0,
    };
    match answer {
        LineAnswer::Flag(flag) => Answer {
            found: *flag,
            ..none
        },
        LineAnswer::Count(number) | LineAnswer::Definition(Some(number)) => {
            Answer {
                found: true,
                number: *number,
                ..none
            }
        }
        LineAnswer::List(Some((delimiter, start, number))) => {
            Answer {
                found: true,
                delimiter: *delimiter,
                start: *start,
                number: *number,
            }
        }
        LineAnswer::List(None) | LineAnswer::Definition(None) => none,
    }
}

// The status of a run that stopped so.
fn status_of(stop: &LineStop) -> u32
    ensures { result ≡ stop_status stop.now }
{
    match stop {
        LineStop::SpacePending => SPACE_PENDING,
        LineStop::IndentTooLarge => TOO_LARGE,
    }
}
