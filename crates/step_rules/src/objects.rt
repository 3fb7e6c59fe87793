//! Rules 6 to 8 and 13: what follows from the objects of a register and of an object.
ghost use Rattle.std.specs.Prelude.{◌≡◌, OnOk, fold};
ghost use Rattle.app_machine.specs.Sound.{SoundApp};
ghost use Rattle.step_rules.specs.StepGiven.{got_gives, put_on_gives, object_gives, points_lead, points_on};
ghost use Rattle.step_rules.specs.StepGiven.{gets, getter_gives, back_gives, cell_gives, step_here};

use crate::contents::{content, put};
use crate::numbers;
use app_machine::{Act, App, Step};
use app_model::step_at;
use fact_rows::{Node, Row, Site};
use rule_ground::{
    Conclusion, Content, Facts, Inference, Join, Key, Premises, Sink, for_each_hit, is_among,
    put_all,
};
use vet_base::KeyId;

/// A register that may hold an object of a site at a node.
#[derive(Clone, Copy)]
pub struct Holding {
    pub node: Node,
    pub register: u32,
    pub site: Site,
}

impl Holding {
    fn row(&self) -> Row
        ensures { result ≡ Row.Points self.now.node self.now.register self.now.site }
    {
        Row::Points(self.node, self.register, self.site)
    }
}

/// What the object holds under the key goes to the targets.
#[derive(Drop)]
struct Got<'a> {
    targets: &'a [u32],
    next: &'a [u32],
    from: Holding,
}

impl<'a> Join for Got<'a> {
    ghost ready = { λ j. Unit {0} };

    ghost gives = { λ j row. got_gives j.targets.now j.next.now j.from.node j.from.register j.from.site row };

    fn give<S: Sink>(&self, row: Row, out: &mut S) -> Result<(), S::Refusal> {
        match row {
            Row::Cell(_, _, held) => {
                let inference = Inference {
                    rule: numbers::GET,
                    premises: Premises::of_two(self.from.row(), row),
                };
                let held = Content::Object(held);
                put_all(
                    inference,
                    held,
                    self.from.node,
                    self.targets,
                    self.next,
                    out,
                )
            }
            _ => Ok(()),
        }
    }
}

/// The object holds what the put's register holds.
#[derive(Drop)]
struct OnObject {
    key: KeyId,
    into: Holding,
}

impl Join for OnObject {
    ghost ready = { λ j. Unit {0} };

    ghost gives = { λ j row. put_on_gives j.into.node j.key j.into.register j.into.site row };

    fn give<S: Sink>(&self, row: Row, out: &mut S) -> Result<(), S::Refusal> {
        let premises = Premises::of_two(self.into.row(), row);
        match row {
            Row::Points(_, _, held) => out.put(Conclusion {
                rule: numbers::PUT,
                premises,
                row: Row::Cell(self.into.site, self.key, held),
            }),
            Row::Taint(_, _, path, label) => out.put(Conclusion {
                rule: numbers::PUT,
                premises,
                row: Content::Label(path, label).stored(self.into.node, self.into.site, self.key),
            }),
            _ => Ok(()),
        }
    }
}

/// What an object gives that a label does not give so.
fn object_alone<F: Facts, S: Sink>(
    facts: &F,
    step: &Step,
    held: Holding,
    out: &mut S,
) -> Result<(), S::Refusal>
    ensures { OnOk result (out.new ≡ fold S.then out.old (object_gives (F.hits facts.now) step.now.act step.now.next
        held.node held.register held.site)) }
{
    match &step.act {
        Act::Fill(elements, _) => {
            if is_among(elements.as_slice(), held.register) {
                out.put(Conclusion {
                    rule: numbers::FILL,
                    premises: Premises::of_one(held.row()),
                    row: Row::Cell(Site::At(held.node), KeyId(0), held.site),
                })
            } else {
                Ok(())
            }
        }
        Act::Get(targets, from, key) => {
            if *from == held.register {
                let with = Got {
                    targets: targets.as_slice(),
                    next: step.next.as_slice(),
                    from: held,
                };
                for_each_hit(facts, &Key::CellsOf(held.site, *key), &with, out)
            } else {
                Ok(())
            }
        }
        Act::Put(into, key, from) => {
            if *into == held.register {
                let with = OnObject {
                    key: *key,
                    into: held,
                };
                for_each_hit(facts, &Key::PointsAt(held.node, *from), &with, out)?;
                for_each_hit(facts, &Key::TaintsAt(held.node, *from), &with, out)
            } else {
                Ok(())
            }
        }
        _ => Ok(()),
    }
}

/// What a register leads that may hold an object of the site: what follows from it alone, and with
/// what the object holds and what is put into it.
pub fn lead_object<F: Facts, S: Sink>(
    app: &App,
    facts: &F,
    held: Holding,
    out: &mut S,
) -> Result<(), S::Refusal>
    requires { SoundApp app.now }
    ensures { OnOk result (out.new ≡ fold S.then out.old (points_lead (step_here app.now held.node) (F.hits facts.now)
        held.node held.register held.site)) }
{
    match step_at(app, held.node.by.method, held.node.pc) {
        None => Ok(()),
        Some(step) => {
            content(
                step,
                held.node,
                held.register,
                Content::Object(held.site),
                out,
            )?;
            object_alone(facts, step, held, out)
        }
    }
}

/// What follows where a register may hold an object of the site.
pub fn from_object<F: Facts, S: Sink>(
    app: &App,
    facts: &F,
    held: Holding,
    out: &mut S,
) -> Result<(), S::Refusal>
    requires { SoundApp app.now }
    ensures { OnOk result (out.new ≡ fold S.then out.old (points_on (step_here app.now held.node) (F.hits facts.now)
        held.node held.register held.site)) }
{
    match step_at(app, held.node.by.method, held.node.pc) {
        None => Ok(()),
        Some(step) => {
            let object = Content::Object(held.site);
            content(step, held.node, held.register, object, out)?;
            object_alone(facts, step, held, out)?;
            put(facts, &step.act, held.node, held.register, object, out)
        }
    }
}

/// The step gets what the object holds under the key, where it gets it from the register.
fn get_held<S: Sink>(
    step: &Step,
    from: Holding,
    key: KeyId,
    held: Site,
    out: &mut S,
) -> Result<(), S::Refusal>
    ensures { OnOk result (out.new ≡ fold S.then out.old (gets step.now.act step.now.next from.node from.register
        from.site key held)) }
{
    match &step.act {
        Act::Get(targets, register, own) => {
            if *register == from.register && own.0 == key.0 {
                let inference = Inference {
                    rule: numbers::GET,
                    premises: Premises::of_two(from.row(), Row::Cell(from.site, key, held)),
                };
                let held = Content::Object(held);
                put_all(
                    inference,
                    held,
                    from.node,
                    targets.as_slice(),
                    step.next.as_slice(),
                    out,
                )
            } else {
                Ok(())
            }
        }
        _ => Ok(()),
    }
}

/// Who gets from the object gets what the cell holds.
#[derive(Drop)]
struct Getter<'a> {
    app: &'a App,
    site: Site,
    key: KeyId,
    held: Site,
}

impl<'a> Join for Getter<'a> {
    ghost ready = { λ j. SoundApp j.app.now };

    ghost gives = { λ j row. getter_gives j.app.now j.site j.key j.held row };

    fn give<S: Sink>(&self, row: Row, out: &mut S) -> Result<(), S::Refusal> {
        match row {
            Row::Points(node, register, _) => match step_at(self.app, node.by.method, node.pc) {
                None => Ok(()),
                Some(step) => {
                    let from = Holding {
                        node,
                        register,
                        site: self.site,
                    };
                    get_held(step, from, self.key, self.held, out)
                }
            },
            _ => Ok(()),
        }
    }
}

/// The held object is held by the other.
pub fn back<S: Sink>(site: Site, key: KeyId, held: Site, out: &mut S) -> Result<(), S::Refusal>
    ensures { OnOk result (out.new ≡ S.then out.old (back_gives site key held)) }
{
    out.put(Conclusion {
        rule: numbers::BACK,
        premises: Premises::of_one(Row::Cell(site, key, held)),
        row: Row::Back(held, key, site),
    })
}

/// What follows where an object holds another.
pub fn cell<F: Facts, S: Sink>(
    app: &App,
    facts: &F,
    site: Site,
    key: KeyId,
    held: Site,
    out: &mut S,
) -> Result<(), S::Refusal>
    requires { SoundApp app.now }
    ensures { OnOk result (out.new ≡ fold S.then out.old (cell_gives app.now (F.hits facts.now) site key held)) }
{
    back(site, key, held, out)?;
    for_each_hit(
        facts,
        &Key::PointsTo(site),
        &Getter {
            app,
            site,
            key,
            held,
        },
        out,
    )
}
