ghost use Rattle.std.specs.Prelude.{◌≡◌, ◌≤◌, length, option_map};
ghost use Rattle.std.specs.List.{position_or_len};
ghost use Rattle.desk_routes.specs.Routes.{cases, decisions, reviews, rulings, case_front, report_end, appeal_end};
ghost use Rattle.desk_routes.specs.Routes.{is_slash, page_by, case_page, route_of, act_of, may_ask};

use store_office::Role;

/// What a target names.
#[derive(Clone, Copy)]
pub(crate) enum Page {
    /// `/cases`
    Cases,
    /// `/cases/REFERENCE`
    Case,
    /// `/cases/REFERENCE/report`
    Report,
    /// `/cases/REFERENCE/appeal`
    Appeal,
    /// `/decisions`
    Decisions,
    /// `/reviews`
    Reviews,
    /// `/rulings`
    Rulings,
}

/// What a party asks of the desk.
#[derive(Clone, Copy)]
pub(crate) enum Act {
    Submit,
    List,
    Show,
    Report,
    Appeal,
    Decide,
    Review,
    Rule,
}

#[tactic(auto, unfolding(crate::specs::Routes::cases))]
fn cases() -> &'static [u8]
    ensures { result.now ≡ cases }
{
    b"/cases"
}

#[tactic(auto, unfolding(crate::specs::Routes::decisions))]
fn decisions() -> &'static [u8]
    ensures { result.now ≡ decisions }
{
    b"/decisions"
}

#[tactic(auto, unfolding(crate::specs::Routes::reviews))]
fn reviews() -> &'static [u8]
    ensures { result.now ≡ reviews }
{
    b"/reviews"
}

#[tactic(auto, unfolding(crate::specs::Routes::rulings))]
fn rulings() -> &'static [u8]
    ensures { result.now ≡ rulings }
{
    b"/rulings"
}

#[tactic(auto, unfolding(crate::specs::Routes::case_front))]
fn case_front() -> &'static [u8]
    ensures { result.now ≡ case_front }
{
    b"/cases/"
}

#[tactic(auto, unfolding(crate::specs::Routes::report_end))]
fn report_end() -> &'static [u8]
    ensures { result.now ≡ report_end }
{
    b"/report"
}

#[tactic(auto, unfolding(crate::specs::Routes::appeal_end))]
fn appeal_end() -> &'static [u8]
    ensures { result.now ≡ appeal_end }
{
    b"/appeal"
}

/// Where the first `/` stands, or the length where there is none.
#[tactic(auto, using(crate::proofs::Slashes::slash_is))]
fn slash_at(bytes: &[u8]) -> usize
    ensures place { result ≡ position_or_len is_slash bytes.now }
    ensures within { result ≤ length bytes.now }
{
    for (place, byte) in bytes.iter().enumerate() {
        if *byte == b'/' {
            return place;
        }
    }
    bytes.len()
}

/// The page of a case, by what stands behind its reference.
fn page_by(rest: &[u8]) -> Option<Page>
    ensures { result ≡ page_by rest.now }
{
    if rest.is_empty() {
        Some(Page::Case)
    } else if rest == report_end() {
        Some(Page::Report)
    } else if rest == appeal_end() {
        Some(Page::Appeal)
    } else {
        None
    }
}

/// The page of a case, and its reference.
fn case_page(rest: &[u8]) -> Option<(Page, &[u8])>
    ensures { option_map (λ found. (found.0, found.1.now)) result ≡ case_page rest.now }
{
    let (reference, behind) = rest.split_at(slash_at(rest));
    if reference.is_empty() {
        return None;
    }
    match page_by(behind) {
        Some(page) => Some((page, reference)),
        None => None,
    }
}

/// The page of a target, and its reference where the page is that of a case.
pub(crate) fn route_of(target: &[u8]) -> Option<(Page, &[u8])>
    ensures { option_map (λ found. (found.0, found.1.now)) result ≡ route_of target.now }
{
    if target == cases() {
        return Some((Page::Cases, &[]));
    }
    if target == decisions() {
        return Some((Page::Decisions, &[]));
    }
    if target == reviews() {
        return Some((Page::Reviews, &[]));
    }
    if target == rulings() {
        return Some((Page::Rulings, &[]));
    }
    match target.strip_prefix(case_front()) {
        Some(rest) => case_page(rest),
        None => None,
    }
}

impl Page {
    /// What is asked of the page: by POST, or by GET.
    pub(crate) fn act(self, post: bool) -> Option<Act>
        ensures { result ≡ act_of self post }
    {
        match (self, post) {
            (Page::Cases, false) => Some(Act::List),
            (Page::Cases, true) => Some(Act::Submit),
            (Page::Case, false) => Some(Act::Show),
            (Page::Report, false) => Some(Act::Report),
            (Page::Appeal, true) => Some(Act::Appeal),
            (Page::Decisions, true) => Some(Act::Decide),
            (Page::Reviews, true) => Some(Act::Review),
            (Page::Rulings, true) => Some(Act::Rule),
            _ => None,
        }
    }
}

impl Act {
    /// Whether a party of this role asks it.
    pub(crate) fn is_for(self, role: Role) -> bool
        ensures { result ≡ may_ask role self }
    {
        match self {
            Act::Submit | Act::Show | Act::Report | Act::Appeal => role == Role::Developer,
            Act::Decide | Act::Review | Act::Rule => role == Role::Reviewer,
            Act::List => true,
        }
    }
}
