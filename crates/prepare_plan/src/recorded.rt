//! The tests of numbers and moments, by the replies that were recorded.

ghost use Rattle.std.specs.Prelude.{◌≡◌, ◌+◌, ◌<◌, ◌≤◌, ◌++◌, ◌∷◌, [], ◌&&◌, nat_le, List, length};
ghost use Rattle.std.specs.List.{AllByRecursion};
ghost use Rattle.desk_values.specs.Answers.{Answers};
ghost use Rattle.desk_values.specs.declared.capture.Captured.{Captured as Call};
ghost use Rattle.replay_history.specs.Capture.{commits, commits_in};
ghost use Rattle.captured_calls.specs.Tests.{bad_number, bad_seen, bad_times, first_refused, right_number};
ghost use Rattle.captured_calls.specs.Inside.{IsFit};
ghost use Rattle.prepare_plan.specs.Inside.{passed, told};

use captured_calls::Refusal;
use desk_values::Captured;
use replay_history::commits;

/// Whether a call is a numbered commit: it committed something.
pub(crate) fn is_numbered(call: &Captured) -> bool
    ensures { result ≡ commits call.now.reply.outcome }
{
    commits(&call.reply.outcome)
}

/// How many numbered commits there are when one more call is counted.
fn commits_with(commits: u64, call: &Captured) -> u64
    requires { commits < 100000 }
    ensures value { (before : List Call) → commits ≡ commits_in before → result ≡ commits_in (before ++ call.now ∷ []) }
    ensures most { result ≤ commits + 1 }
{
    if is_numbered(call) {
        commits + 1
    } else {
        commits
    }
}

/// The number that a call should have.
fn right_number(commits: u64, call: &Captured) -> u64
    requires { commits < 100000 }
    ensures { (before : List Call) → commits ≡ commits_in before → result ≡ right_number before call.now }
{
    if is_numbered(call) { commits + 1 } else { 0 }
}

/// Whether each number is that of the call's commit.
pub(crate) fn judge_numbers(calls: &[Captured]) -> Result<(), Refusal>
    requires { length calls.now ≤ 100000 }
    ensures { Answers passed told result (first_refused bad_number [] calls.now) }
{
    let mut commits = 0;
    for call in calls {
        let right = right_number(commits, call);
        if call.number != right {
            return Err(Refusal::Number {
                stamp: call.stamp,
                written: call.number,
                right,
            });
        }
        commits = commits_with(commits, call);
    }
    Ok(())
}

/// Whether each call saw just the numbered commits before it.
pub(crate) fn judge_seen(calls: &[Captured]) -> Result<(), Refusal>
    requires { length calls.now ≤ 100000 }
    ensures { Answers passed told result (first_refused bad_seen [] calls.now) }
{
    let mut commits = 0;
    for call in calls {
        if call.seen != commits {
            return Err(Refusal::Seen {
                stamp: call.stamp,
                written: call.seen,
                right: commits,
            });
        }
        commits = commits_with(commits, call);
    }
    Ok(())
}

/// Whether each call begins when its session's call before it has ended, and ends no earlier.
pub(crate) fn judge_times(calls: &[Captured]) -> Result<(), Refusal>
    requires { AllByRecursion IsFit calls.now }
    ensures { Answers passed told result (first_refused bad_times [] calls.now) }
{
    let mut ended = [0u64; 64];
    for call in calls {
        let session = call.session as usize;
        if !is_in_time(call, ended[session]) {
            return Err(Refusal::Times { stamp: call.stamp });
        }
        ended[session] = call.ended;
    }
    Ok(())
}

/// Whether a call begins no earlier than this and ends no earlier than it begins.
fn is_in_time(call: &Captured, earliest: u64) -> bool
    ensures { result ≡ (nat_le call.now.began call.now.ended && nat_le earliest call.now.began) }
{
    call.began <= call.ended && earliest <= call.began
}
