ghost use Rattle.std.specs.Prelude.{◌≡◌, ◌<◌, length, ◌++◌, [], ◌∷◌, List, ℕ, IfOk, IfErr, MatchOption};
ghost use Rattle.std.specs.Ordering.{nat_cmp};
ghost use Rattle.std.specs.Cmp.Lexicographic.{slice_cmp};
ghost use Rattle.app_machine.specs.Names.{descriptor_of};
ghost use Rattle.app_machine.specs.Sound.{name_order};
ghost use Rattle.app_model.specs.DescriptorText.{later_parts, text_left, BeginAlike, Differ};

use crate::Proto;
use std::cmp::Ordering;
use vet_base::Name;

/// The parts of a descriptor that are still to come.
#[derive(Clone, Copy)]
enum Later<'a> {
    /// These parameters, the closing parenthesis and the result.
    Params(&'a [Name], &'a [u8]),
    /// The result.
    Ret(&'a [u8]),
    Nothing,
}

/// What is left of the text of a descriptor, which is never written out.
#[derive(Clone, Copy)]
struct Text<'a> {
    part: &'a [u8],
    later: Later<'a>,
}

/// How the descriptors of the two compare, as texts.
pub(super) fn compare_descriptors(a: &Proto, b: &Proto) -> Ordering
    ensures { result ≡ name_order (descriptor_of a.now) (descriptor_of b.now) }
{
    compare_texts(text_of(a), text_of(b))
}

/// How the descriptor compares with this text.
pub(super) fn compare_descriptor(proto: &Proto, text: &[u8]) -> Ordering
    ensures { result ≡ name_order (descriptor_of proto.now) text.now }
{
    match after(text_of(proto), text) {
        Ok(left) => compare_end(left),
        Err(order) => order,
    }
}

#[tactic(auto, unfolding(app_machine::specs::Names::descriptor_of))]
fn text_of(proto: &Proto) -> Text<'_>
    ensures { text_left result ≡ descriptor_of proto.now }
{
    Text {
        part: b"(",
        later: Later::Params(proto.params.as_slice(), proto.ret.as_bytes()),
    }
}

/// The next part and those after it.
fn next_part(later: Later) -> Option<Text>
    ensures { MatchOption result (later_parts later.entry ≡ []) (λ t. later_parts later.entry
        ≡ t.part.now ∷ later_parts t.later) }
{
    match later {
        Later::Params([param, params @ ..], ret) => Some(Text {
            part: param.as_bytes(),
            later: Later::Params(params, ret),
        }),
        Later::Params([], ret) => Some(Text {
            part: b")",
            later: Later::Ret(ret),
        }),
        Later::Ret(ret) => Some(Text {
            part: ret,
            later: Later::Nothing,
        }),
        Later::Nothing => None,
    }
}

/// What is left of both behind what they have in common, where one of them ends there; else how they compare.
fn after_common<'a, 'b>(a: &'a [u8], b: &'b [u8]) -> Result<(&'a [u8], &'b [u8]), Ordering>
    ensures alike { IfOk result (λ left. BeginAlike a.now b.now left.0.now left.1.now) }
    ensures shorter { IfOk result (λ left. 0 < length a.now → 0 < length b.now → length left.1.now < length b.now) }
    ensures differ { IfErr result (λ order. Differ a.now b.now order) }
{
    let common = a.len().min(b.len());
    let (front_a, left_a) = a.split_at(common);
    let (front_b, left_b) = b.split_at(common);
    match front_a.cmp(front_b) {
        Ordering::Equal => Ok((left_a, left_b)),
        order => Err(order),
    }
}

/// What is left of the first behind the second, where it begins with it; else how they compare.
fn after<'a>(text: Text<'a>, front: &[u8]) -> Result<Text<'a>, Ordering>
    ensures alike { IfOk result (λ left. text_left text.entry ≡ front.now ++ text_left left) }
    ensures differ { IfErr result (λ order. (more : List ℕ) → slice_cmp nat_cmp (text_left text.entry)
        (front.now ++ more) ≡ order) }
{
    let mut text = text;
    let mut front = front;
    while !front.is_empty() {
        if text.part.is_empty() {
            match next_part(text.later) {
                Some(next) => text = next,
                None => return Err(Ordering::Less),
            }
        } else {
            match after_common(text.part, front) {
                Ok((part, left)) => {
                    text = Text {
                        part,
                        later: text.later,
                    };
                    front = left;
                }
                Err(order) => return Err(order),
            }
        }
    }
    Ok(text)
}

/// How the text compares with the empty one.
fn compare_end(text: Text) -> Ordering
    ensures { result ≡ name_order (text_left text.entry) [] }
{
    let mut text = text;
    while text.part.is_empty() {
        match next_part(text.later) {
            Some(next) => text = next,
            None => return Ordering::Equal,
        }
    }
    Ordering::Greater
}

/// How the two compare.
fn compare_texts(a: Text, b: Text) -> Ordering
    ensures { result ≡ name_order (text_left a.entry) (text_left b.entry) }
{
    let mut a = a;
    let mut b = b;
    loop {
        match after(a, b.part) {
            Ok(left) => a = left,
            Err(order) => return order,
        }
        match next_part(b.later) {
            Some(next) => b = next,
            None => return compare_end(a),
        }
    }
}
