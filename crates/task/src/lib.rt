// The task check, and readers of an accepted task's rows.

#![tactic(auto)]

ghost use Rattle.std.specs.Prelude.{◌≡◌, true, ◌+◌, ◌*◌, ◌≤◌, ◌<◌, length, eqb, IfOk};
ghost use Rattle.semantics.specs.Base.{up_to, first_refusal};
ghost use Rattle.semantics.specs.Task.{row_width, word, mask_in, facts, members, actions, initial};
ghost use Rattle.semantics.specs.Task.{goal, action_at, owner, pre, wait, add, del, zeros_from};
ghost use Rattle.semantics.specs.Task.{mask_fits, head_fits, goal_row, action_row, check};
ghost use Rattle.mask.specs.Number.{number};
ghost use Rattle.refusal.specs.Number.{code};
ghost use Rattle.semantics.specs.Mask.{within};
ghost use Rattle.task.specs.Inner.Shape.{Sized, masks_below, rows_refusal};

use mask::Mask;
use refusal::Refusal;

// Words in a row: a number, then four masks.
const ROW: usize = 9;

// Word k of row r.
fn word(t: &[u64], r: usize, k: usize) -> u64
    requires { row_width * r + k < length t.now }
    ensures { result ≡ word t.now r k }
{
    t[ROW * r + k]
}

// The mask in words k and k + 1 of row r.
fn mask_in(t: &[u64], r: usize, k: usize) -> Mask
    requires { row_width * r + k + 1 < length t.now }
    ensures { number result ≡ mask_in t.now r k }
{
    let low = word(t, r, k);
    let high = word(t, r, k + 1);
    Mask::from([low, high])
}

// The row of action a.
fn action_at(t: &[u64], a: usize) -> usize
    requires sized { Sized t.now }
    requires a_bound { a < actions t.now }
    ensures { result ≡ action_at t.now a }
{
    let n = word(t, 0, 1) as usize;
    1 + n + a
}

// The member in action a's row.
fn owner_word(t: &[u64], a: usize) -> u64
    requires sized { Sized t.now }
    requires a_bound { a < actions t.now }
    ensures { result ≡ owner t.now a }
{
    let r = action_at(t, a);
    word(t, r, 0)
}

// The mask in words k and k + 1 of action a's row.
fn action_mask(t: &[u64], a: usize, k: usize) -> Mask
    requires sized { Sized t.now }
    requires a_bound { a < actions t.now }
    requires k_bound { k + 1 < row_width }
    ensures { number result ≡ mask_in t.now (action_at t.now a) k }
{
    let r = action_at(t, a);
    mask_in(t, r, k)
}

// ---- the task check

// The words of row r from word k on are zero.
fn zeros(t: &[u64], r: usize, k: usize) -> bool
    requires row_width_in_bounds { row_width * r + row_width ≤ length t.now }
    requires k_le_row_width { k ≤ row_width }
    ensures { result ≡ zeros_from t.now r k }
{
    for j in 0..ROW - k {
        if word(t, r, k + j) != 0 {
            return false;
        }
    }
    true
}

// F, n, m and the last four words of row 0 are in their ranges.
fn head_fits(t: &[u64]) -> bool
    requires { row_width ≤ length t.now }
    ensures { result ≡ head_fits t.now }
{
    if t[0] < 1 {
        return false;
    }
    if 128 < t[0] {
        return false;
    }
    if t[1] < 1 {
        return false;
    }
    if 8 < t[1] {
        return false;
    }
    if 256 < t[2] {
        return false;
    }
    zeros(t, 0, 5)
}

// The length is that of the rows.
fn sized(t: &[u64]) -> bool
    requires row_width_in_bounds { row_width ≤ length t.now }
    requires t_value { head_fits t.now ≡ true }
    ensures { result
        ≡ eqb (length t.now)
        (row_width * (1 + members t.now + actions t.now)) }
{
    let n = t[1] as usize;
    let m = t[2] as usize;
    t.len() == ROW * (1 + n + m)
}

// No bit of the mask in words k and k + 1 of row r at or above F.
fn below(t: &[u64], r: usize, k: usize) -> bool
    requires { row_width * r + k + 1 < length t.now }
    ensures { result ≡ mask_fits t.now r k }
{
    mask::below(t[0], mask_in(t, r, k))
}

// Member i's goal row.
fn goal_row(t: &[u64], i: usize) -> Result<(), Refusal>
    requires sized { Sized t.now }
    requires i_bound { i < members t.now }
    ensures { code result ≡ goal_row t.now i }
{
    let r = 1 + i;
    if word(t, r, 0) != i as u64 {
        return Err(Refusal::GoalRow);
    }
    if !zeros(t, r, 3) {
        return Err(Refusal::GoalRow);
    }
    if !below(t, r, 1) {
        return Err(Refusal::Fact);
    }
    Ok(())
}

// The first refusal of a goal row. Like `action_rows` but for the rows: one function of both would
// take a closure and say in its contract what `goal_row` and `action_row` say.
fn goal_rows(t: &[u64]) -> Result<(), Refusal>
    requires { Sized t.now }
    ensures { code result
        ≡ first_refusal (goal_row t.now) (up_to (members t.now)) }
{
    let n = word(t, 0, 1) as usize;
    for i in 0..n {
        goal_row(t, i)?;
    }
    Ok(())
}

// No bit of the mask in words k and k + 1 of action a's row at or above F.
fn action_below(t: &[u64], a: usize, k: usize) -> bool
    requires sized { Sized t.now }
    requires a_bound { a < actions t.now }
    requires k_bound { k + 1 < row_width }
    ensures { result ≡ mask_fits t.now (action_at t.now a) k }
{
    let r = action_at(t, a);
    below(t, r, k)
}

// The masks of action a have no bit at or above F.
fn masks_below(t: &[u64], a: usize) -> bool
    requires sized { Sized t.now }
    requires a_bound { a < actions t.now }
    ensures { result ≡ masks_below t.now a }
{
    if !action_below(t, a, 1) {
        return false;
    }
    if !action_below(t, a, 3) {
        return false;
    }
    if !action_below(t, a, 5) {
        return false;
    }
    action_below(t, a, 7)
}

// What action a waits for is a precondition.
fn wait_in_pre(t: &[u64], a: usize) -> bool
    requires sized { Sized t.now }
    requires a_bound { a < actions t.now }
    ensures { result ≡ within (wait t.now a) (pre t.now a) }
{
    let w = action_mask(t, a, 3);
    let p = action_mask(t, a, 1);
    mask::within(w, p)
}

// Action a's row.
fn action_row(t: &[u64], a: usize) -> Result<(), Refusal>
    requires sized { Sized t.now }
    requires a_bound { a < actions t.now }
    ensures { code result ≡ action_row t.now a }
{
    let o = owner_word(t, a);
    let n = word(t, 0, 1);
    if n <= o {
        return Err(Refusal::Owner);
    }
    if !masks_below(t, a) {
        return Err(Refusal::Fact);
    }
    if !wait_in_pre(t, a) {
        return Err(Refusal::Wait);
    }
    Ok(())
}

// The first refusal of an action row.
fn action_rows(t: &[u64]) -> Result<(), Refusal>
    requires { Sized t.now }
    ensures { code result
        ≡ first_refusal (action_row t.now) (up_to (actions t.now)) }
{
    let m = word(t, 0, 2) as usize;
    for a in 0..m {
        action_row(t, a)?;
    }
    Ok(())
}

// The first refusal of a row.
fn rows(t: &[u64]) -> Result<(), Refusal>
    requires { Sized t.now }
    ensures { code result ≡ rows_refusal t.now }
{
    goal_rows(t)?;
    action_rows(t)
}

// ---- an accepted task

// A task that the check accepts: its words. No other has a value of this type.
#[derive(Clone, Copy)]
pub struct Task<'a> {
    pub words: &'a [u64],
    pub ghost accepted: { check words.now ≡ 0 },
}

// The task check: the accepted task, or the first refusal.
pub fn check(words: &[u64]) -> Result<Task<'_>, Refusal>
    ensures refusal { code result ≡ check words.now }
    ensures task { IfOk result (λ t. t.words.now ≡ words.now) }
{
    if words.len() < ROW {
        return Err(Refusal::Length);
    }
    if !head_fits(words) {
        return Err(Refusal::Range);
    }
    if !sized(words) {
        return Err(Refusal::Length);
    }
    if !below(words, 0, 3) {
        return Err(Refusal::Fact);
    }
    rows(words)?;
    Ok(Task { words })
}

impl<'a> Task<'a> {
    // F.
    pub fn facts(&self) -> u64
        ensures { result ≡ facts self.now.words.now }
    {
        word(self.words, 0, 0)
    }

    // n.
    pub fn members(&self) -> usize
        ensures { result ≡ members self.now.words.now }
    {
        word(self.words, 0, 1) as usize
    }

    // m.
    pub fn actions(&self) -> usize
        ensures { result ≡ actions self.now.words.now }
    {
        word(self.words, 0, 2) as usize
    }

    // I.
    pub fn initial(&self) -> Mask
        ensures { number result ≡ initial self.now.words.now }
    {
        mask_in(self.words, 0, 3)
    }

    // Member i's goal.
    pub fn goal(&self, i: usize) -> Mask
        requires { i < members self.now.words.now }
        ensures { number result ≡ goal self.now.words.now i }
    {
        mask_in(self.words, 1 + i, 1)
    }

    // The member whose action a is.
    pub fn owner(&self, a: usize) -> usize
        requires { a < actions self.now.words.now }
        ensures { result ≡ owner self.now.words.now a }
    {
        owner_word(self.words, a) as usize
    }

    // Action a's preconditions.
    pub fn pre(&self, a: usize) -> Mask
        requires { a < actions self.now.words.now }
        ensures { number result ≡ pre self.now.words.now a }
    {
        action_mask(self.words, a, 1)
    }

    // Those that are waited for.
    pub fn wait(&self, a: usize) -> Mask
        requires { a < actions self.now.words.now }
        ensures { number result ≡ wait self.now.words.now a }
    {
        action_mask(self.words, a, 3)
    }

    // The facts that action a makes true.
    pub fn add(&self, a: usize) -> Mask
        requires { a < actions self.now.words.now }
        ensures { number result ≡ add self.now.words.now a }
    {
        action_mask(self.words, a, 5)
    }

    // The facts that it makes false, where it does not make them true.
    pub fn del(&self, a: usize) -> Mask
        requires { a < actions self.now.words.now }
        ensures { number result ≡ del self.now.words.now a }
    {
        action_mask(self.words, a, 7)
    }
}
