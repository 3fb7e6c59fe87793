use fact_rows::{Activation, Ctx, Node};
use rule_ground::{at_pc, callee, entry, pushed};

/// The contexts of one, two and three calls from an event on.
fn after_calls() -> [Ctx; 3] {
    let first = pushed(Ctx::Row(0, 1), 10, 1);
    let second = pushed(first, 11, 2);
    let third = pushed(second, 12, 3);
    [first, second, third]
}

#[test]
fn a_context_has_the_last_two_calls(rt: HostRuntime) {
    let first = Ctx::Call(10, 1);
    let wanted = [first, Ctx::Call2(11, 2, 10, 1), Ctx::Call2(12, 3, 11, 2)];
    assert_eq!(rt; after_calls(), wanted);
    assert_eq!(rt; pushed(Ctx::Handed(4), 10, 1), first);
}

#[test]
fn a_body_is_entered_at_its_first_instruction(rt: HostRuntime) {
    let by = Activation {
        ctx: Ctx::Call(10, 1),
        method: 11,
    };
    let node = Node { by, pc: 2 };
    let entered = Node {
        by: Activation {
            ctx: Ctx::Call2(11, 2, 10, 1),
            method: 12,
        },
        pc: 0,
    };
    assert_eq!(rt; entry(callee(node, 12)), entered);
    assert_eq!(rt; at_pc(node, 5), Node { by, pc: 5 });
}
