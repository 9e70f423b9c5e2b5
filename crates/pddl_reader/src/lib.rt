// A reader of PDDL: it keeps hold on the lent text together with the next byte to read. Each
// function is thin over one on a slice and an offset.

#![tactic(auto)]

ghost use Rattle.std.specs.Prelude.{◌≡◌};
ghost use Rattle.pddl_section.specs.Inner.Section.{Members};

// The lent text, and the offset of its next byte.
#[derive(Clone, Copy)]
pub struct Reader<'a> {
    pub text: &'a [u8],
    pub at: usize,
}

// A reader whose next byte is at an offset.
pub fn reader_at<'a>(text: &'a [u8], at: usize) -> Reader<'a>
    ensures { (result.text ≡ text.entry) × (result.at ≡ at) }
{
    Reader { text, at }
}

// The member that stands next.
pub fn member<'a>(r: Reader<'a>) -> Option<pddl_section::Member>
    ensures { Members r.entry.text.now r.entry.at result }
{
    pddl_section::member_at(r.text, r.at)
}

// A member from an offset on. Its parameters are plain.
pub fn member_at(text: &[u8], at: usize) -> Option<pddl_section::Member>
    ensures { Members text.now at result }
{
    member(reader_at(text, at))
}
