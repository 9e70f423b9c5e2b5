// Why an input is refused, with the paper's numbers.

#![tactic(auto)]

ghost use Rattle.std.specs.Prelude.{◌≡◌};
ghost use Rattle.refusal.specs.Number.{number, by_number};

// The refusals, in the order of their numbers, which begin with 1.
#[derive(Clone, Copy, Debug, PartialEq, Eq)]
pub enum Refusal {
    // The task's length.
    Length,
    // F, n, m or the last four words of row 0.
    Range,
    // A goal row's member or its last six words.
    GoalRow,
    // A bit at or above F.
    Fact,
    // An action's member.
    Owner,
    // Wait is not within pre.
    Wait,
    // No such action.
    Action,
    // No such member.
    Member,
    // More rows than the table takes.
    Full,
    // Another member's action.
    Others,
    // The ends, or a place past its plan's end.
    Ends,
    // A plan does not solve.
    NoSolution,
    // No step left, waiting, or already collided.
    Pick,
    // A lent slice is too short, or a change number too large.
    Short,
    // The text's form, or the waits'.
    Text,
    // A text outside the subset of PDDL, or without a member.
    Pddl,
    // A name or number unknown, a name twice, or members that differ.
    Name,
    // More facts, members or actions than a task allows.
    Many,
    // The ticket's change number is not the run's.
    Stale,
    // The run's change number is the last one.
    Changes,
}

impl From<Refusal> for u64 {
    ghost from_gives = { λ e n. n ≡ number e };

    fn from(e: Refusal) -> u64 {
        match e {
            Refusal::Length => 1,
            Refusal::Range => 2,
            Refusal::GoalRow => 3,
            Refusal::Fact => 4,
            Refusal::Owner => 5,
            Refusal::Wait => 6,
            Refusal::Action => 7,
            Refusal::Member => 8,
            Refusal::Full => 9,
            Refusal::Others => 10,
            Refusal::Ends => 11,
            Refusal::NoSolution => 12,
            Refusal::Pick => 13,
            Refusal::Short => 14,
            Refusal::Text => 15,
            Refusal::Pddl => 16,
            Refusal::Name => 17,
            Refusal::Many => 18,
            Refusal::Stale => 19,
            Refusal::Changes => 20,
        }
    }
}

// The result with the refusal's number for the refusal.
pub fn numbered<T>(answer: Result<T, Refusal>) -> Result<T, u64>
    ensures { result ≡ by_number answer }
{
    answer.map_err(u64::from)
}
