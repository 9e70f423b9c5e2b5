// The writer of laws in PDDL. Each inner function puts its bytes into the slice from the place `at`
// on, as far as the slice goes, and answers the place after them: in an empty slice it only counts.
// The slice and the place stay two parameters: of a struct that holds a `&mut` each function would
// have to promise that it keeps the same slice.

#![tactic(auto)]

ghost use Rattle.std.specs.Prelude.{◌≡◌, [], ◌∷◌, ◌-◌, ◌^◌, ◌≤◌, ◌<◌, length};
ghost use Rattle.semantics.specs.Base.{up_to, padded};
ghost use Rattle.semantics.specs.Mask.{has, standing};
ghost use Rattle.semantics.specs.Task.{facts, members, actions};
ghost use Rattle.semantics.specs.Text.{digits};
ghost use Rattle.semantics.specs.PddlWrite.{own, each, numbered, atom_text, effects_text};
ghost use Rattle.semantics.specs.PddlWrite.{action_text, domain_text, goal_text, problem_text};
ghost use Rattle.semantics.specs.PddlWrite.{write_pddl};
ghost use Rattle.mask.specs.Number.{number};
ghost use Rattle.pddl_theory.specs.Inner.Limits.{most_facts};
ghost use Rattle.pddl_write.specs.Inner.Put.{most, next, Put, between, chosen, one};
ghost use Rattle.pddl_write.specs.Inner.Put.{is_own};
ghost use Rattle.pddl_write.specs.Inner.Parts.{told_as, of_action, of_member, text_of};
ghost use Rattle.pddl_write.specs.Post.{writing};

use mask::Mask;
use refusal::Refusal;
use task::Task;

// The bytes of the longest text; no place goes past it.
const MOST: usize = 1_048_576;

// The lengths of both texts.
#[derive(Clone, Copy)]
pub struct Lengths {
    pub of_text: usize,
    pub of_waits: usize,
}

// Which of the two texts is written.
#[derive(Clone, Copy)]
enum Part {
    Law,
    Waits,
}

// How a fact is told: as an atom, as an atom negated, or in the record that action number k of the
// grouped task waits for it.
#[derive(Clone, Copy)]
enum Form {
    Atom,
    Negation,
    Wait(usize),
}

// An action of a task, and its number in the grouped task.
#[derive(Clone, Copy)]
struct Action<'a> {
    task: Task<'a>,
    index: usize,
    number: usize,
    ghost inside: { index < actions task.words.now },
}

// A member of a task, and the number of its first action in the grouped task.
#[derive(Clone, Copy)]
struct Member<'a> {
    task: Task<'a>,
    index: usize,
    first: usize,
    ghost inside: { index < members task.words.now },
    ghost few: { first ≤ most },
}

// The place after this one.
fn next(at: usize) -> usize
    ensures { result ≡ next at }
{
    if at < MOST { at + 1 } else { at }
}

fn put_byte(out: &mut [u8], at: usize, byte: u8) -> usize
    ensures { Put (byte ∷ []) out.old at out.new result }
{
    if at >= out.len() {
        return next(at);
    }
    out[at] = byte;
    next(at)
}

fn put(out: &mut [u8], at: usize, bytes: &[u8]) -> usize
    ensures { Put bytes.now out.old at out.new result }
{
    let mut next = at;
    for byte in bytes {
        next = put_byte(out, next, *byte);
    }
    next
}

// In base ten. The one of `report` asks for room, and so cannot count.
fn put_number(out: &mut [u8], at: usize, v: u64) -> usize
    ensures { Put (digits v) out.old at out.new result }
{
    if v < 10 {
        return put_byte(out, at, b'0' + v as u8);
    }
    let front = put_number(out, at, v / 10);
    put_byte(out, front, b'0' + (v % 10) as u8)
}

// A number between bytes.
fn put_told(out: &mut [u8], at: usize, before: &[u8], v: u64, after: &[u8]) -> usize
    ensures { Put (between before.now after.now v)
        out.old at out.new result }
{
    let number = put(out, at, before);
    let end = put_number(out, number, v);
    put(out, end, after)
}

// Fact f.
fn put_form(out: &mut [u8], at: usize, form: Form, f: u64) -> usize
    ensures { Put (told_as form f) out.old at out.new result }
{
    match form {
        Form::Atom => put_told(out, at, b" (f", f, b")"),
        Form::Negation => put_told(out, at, b" (not (f", f, b"))"),
        Form::Wait(k) => {
            let comma = put_number(out, at, k as u64);
            put_told(out, comma, b",", f, b"\r\n")
        }
    }
}

// Fact f, if it stands in the mask. The one of `report` asks for room, and so cannot count.
fn put_fact(out: &mut [u8], at: usize, form: Form, m: Mask, f: u64) -> usize
    requires { f < most_facts }
    ensures { Put
        (chosen (has f (number m)) (told_as form f))
        out.old at out.new result }
{
    if mask::has(m, f) {
        return put_form(out, at, form, f);
    }
    at
}

// The facts of the task that stand in the mask.
fn put_facts(out: &mut [u8], at: usize, t: &Task, form: Form, m: Mask) -> usize
    ensures { Put
        (each (told_as form) (standing (facts t.now.words.now) (number m)))
        out.old at out.new result }
{
    let mut next = at;
    for f in 0..t.facts() {
        next = put_fact(out, next, form, m, f);
    }
    next
}

// A mask with every fact.
fn all() -> Mask
    ensures { number result ≡ 2 ^ most_facts - 1 }
{
    Mask::from([u64::MAX; 2])
}

// All facts as atoms.
fn put_predicates(out: &mut [u8], at: usize, t: &Task) -> usize
    ensures { Put (each atom_text (up_to (facts t.now.words.now)))
        out.old at out.new result }
{
    put_facts(out, at, t, Form::Atom, all())
}

// What an action makes true, those facts that it makes false too among them, then what it makes
// false.
fn put_effects(out: &mut [u8], at: usize, a: &Action) -> usize
    ensures { Put (effects_text a.now.task.words.now a.now.index)
        out.old at out.new result }
{
    let adds = put(out, at, b")\n  :effect (and");
    let dels = put_facts(out, adds, &a.task, Form::Atom, a.task.add(a.index));
    let end = put_facts(out, dels, &a.task, Form::Negation, a.task.del(a.index));
    put(out, end, b"))")
}

fn put_action(out: &mut [u8], at: usize, a: &Action) -> usize
    ensures { Put (action_text a.now.task.words.now a.now.number a.now.index)
        out.old at out.new result }
{
    let pre = put_told(
        out,
        at,
        b"\n (:action a",
        a.number as u64,
        b"\n  :parameters ()\n  :precondition (and",
    );
    let effects = put_facts(out, pre, &a.task, Form::Atom, a.task.pre(a.index));
    put_effects(out, effects, a)
}

// What the text has of the action.
fn put_part(out: &mut [u8], at: usize, part: Part, a: &Action) -> usize
    ensures { Put
        (of_action part a.now.task.words.now a.now.number a.now.index)
        out.old at out.new result }
{
    match part {
        Part::Law => put_action(out, at, a),
        Part::Waits => {
            let form = Form::Wait(a.number);
            put_facts(out, at, &a.task, form, a.task.wait(a.index))
        }
    }
}

// The same, if the action is member i's.
fn put_owned(out: &mut [u8], at: usize, part: Part, a: &Action, i: usize) -> usize
    ensures { Put
        (chosen
        (is_own a.now.task.words.now i a.now.index)
        (of_action part a.now.task.words.now a.now.number a.now.index))
        out.old at out.new result }
{
    if a.task.owner(a.index) != i {
        return at;
    }
    put_part(out, at, part, a)
}

// 1 where action a is member i's, else 0.
fn owned(t: &Task, a: usize, i: usize) -> usize
    requires { a < actions t.now.words.now }
    ensures value { result ≡ one (is_own t.now.words.now i a) }
    ensures upper_bound { result ≤ 1 }
{
    usize::from(t.owner(a) == i)
}

// The member's actions.
fn put_actions(out: &mut [u8], at: usize, part: Part, m: &Member) -> usize
    ensures { Put
        (numbered
        (of_action part m.now.task.words.now)
        m.now.first
        (own m.now.task.words.now m.now.index))
        out.old at out.new result }
{
    let mut next = at;
    let mut number = m.first;
    for index in 0..m.task.actions() {
        let action = Action {
            task: m.task,
            index,
            number,
        };
        next = put_owned(out, next, part, &action, m.index);
        number += owned(&m.task, index, m.index);
    }
    next
}

// How many actions the member has.
fn count(m: &Member) -> usize
    ensures { result ≡ length (own m.now.task.words.now m.now.index) }
{
    let mut n = 0;
    for a in 0..m.task.actions() {
        n += owned(&m.task, a, m.index);
    }
    n
}

fn put_domain(out: &mut [u8], at: usize, m: &Member) -> usize
    ensures { Put (domain_text m.now.task.words.now m.now.first m.now.index)
        out.old at out.new result }
{
    let predicates = put_told(
        out,
        at,
        b"(define (domain member",
        m.index as u64,
        b")\n (:predicates",
    );
    let paren = put_predicates(out, predicates, &m.task);
    let actions = put(out, paren, b")");
    let end = put_actions(out, actions, Part::Law, m);
    put(out, end, b")\n")
}

fn put_goal(out: &mut [u8], at: usize, m: &Member) -> usize
    ensures { Put (goal_text m.now.task.words.now m.now.index)
        out.old at out.new result }
{
    let atoms = put(out, at, b")\n (:goal (and");
    let end = put_facts(out, atoms, &m.task, Form::Atom, m.task.goal(m.index));
    put(out, end, b")))\n")
}

fn put_problem(out: &mut [u8], at: usize, m: &Member) -> usize
    ensures { Put (problem_text m.now.task.words.now m.now.index)
        out.old at out.new result }
{
    let i = m.index as u64;
    let domain = put_told(out, at, b"(define (problem member", i, b")");
    let initial = put_told(out, domain, b"\n (:domain member", i, b")\n (:init");
    let goal = put_facts(out, initial, &m.task, Form::Atom, m.task.initial());
    put_goal(out, goal, m)
}

// What the text has of the member.
fn put_member(out: &mut [u8], at: usize, part: Part, m: &Member) -> usize
    ensures { Put
        (of_member part m.now.task.words.now m.now.first m.now.index)
        out.old at out.new result }
{
    match part {
        Part::Law => {
            let problem = put_domain(out, at, m);
            put_problem(out, problem, m)
        }
        Part::Waits => put_actions(out, at, part, m),
    }
}

// The whole text.
fn put_text(out: &mut [u8], t: &Task, part: Part) -> usize
    ensures { Put (text_of part t.now.words.now) out.old 0 out.new result }
{
    let mut next = 0;
    let mut first = 0;
    for index in 0..t.members() {
        let member = Member {
            task: *t,
            index,
            first,
        };
        next = put_member(out, next, part, &member);
        first += count(&member);
    }
    next
}

// How long the text is.
fn text_length(t: &Task, part: Part) -> usize
    ensures { result ≡ length (text_of part t.now.words.now) }
{
    let mut none = [0; 0];
    put_text(&mut none, t, part)
}

// The text, and zeros after it.
fn fill(out: &mut [u8], t: &Task, part: Part)
    requires { length (text_of part t.now.words.now) ≤ length out.old }
    ensures { out.new
        ≡ padded (length out.old) (text_of part t.now.words.now) }
{
    let end = put_text(out, t, part);
    rows::fill_from(out, end, 0);
}

// The writer: both texts go to the fronts of their slices, zeros after them, and the answer is
// their lengths; or a refusal, and nothing is written.
pub fn write(task: &[u64], text: &mut [u8], waits: &mut [u8]) -> Result<Lengths, Refusal>
    ensures { writing result text.new waits.new
        ≡ write_pddl task.now text.old waits.old }
{
    let t = task::check(task)?;
    let of_text = text_length(&t, Part::Law);
    let of_waits = text_length(&t, Part::Waits);
    if text.len() < of_text {
        return Err(Refusal::Short);
    }
    if waits.len() < of_waits {
        return Err(Refusal::Short);
    }
    fill(text, &t, Part::Law);
    fill(waits, &t, Part::Waits);
    Ok(Lengths { of_text, of_waits })
}
