// The flow rules over any order.
ghost use Rattle.std.specs.Prelude.{◌≡◌, ◌≤◌, if◌then◌else◌, Ok, Err};
ghost use Rattle.rules.specs.Class.{class_number};
ghost use Rattle.rules.specs.Rules.{rule};
ghost use Rattle.rules.specs.Flow.{caused, by_rule, flow};

use crate::class::Class;
use crate::flow_violation::FlowViolation;
use crate::query::{Query, Verdict};
use labels::cell::Tag;
use labels::order::Order;

// The two writes each test their condition: with one function for both a step took a tenth longer over the first two orders.
// A write to register d: the tag of the pc must flow to the tag that d has.
fn write_register<O: Order>(order: &O, query: &Query, res: Tag) -> Verdict
    ensures { result ≡ (if (O.meaning order.now).flows query.now.pc query.now.d then Ok (query.now.pc, res) else caused 2 tt) }
{
    if order.flows(query.pc, query.d) {
        Ok((query.pc, res))
    } else {
        Err(FlowViolation::NoFlowToRegister.into())
    }
}

// A write to memory: the join of the tags of the address and the pc must flow to the tag that the cell has.
fn write_memory<O: Order>(order: &O, query: &Query, res: Tag) -> Verdict
    ensures { result ≡ (if (O.meaning order.now).flows ((O.meaning order.now).join query.now.a query.now.pc) query.now.memory then Ok (query.now.pc, res) else caused 3 tt) }
{
    if order.flows(order.join(query.a, query.pc), query.memory) {
        Ok((query.pc, res))
    } else {
        Err(FlowViolation::NoFlowToCell.into())
    }
}

// The rule of the query's class.
fn apply_rule<O: Order>(order: &O, class: Class, query: &Query) -> Verdict
    requires { class_number class ≡ query.now.class }
    ensures { result ≡ by_rule (O.meaning order.now) query.now (rule query.now.class) }
{
    let Query {
        class: _,
        pc,
        instruction,
        d,
        a,
        b,
        memory,
    } = *query;
    match class {
        Class::Const => write_register(order, query, order.join(instruction, pc)),
        Class::Mov => write_register(order, query, order.join(a, pc)),
        Class::Bin => write_register(order, query, order.join(order.join(a, b), pc)),
        Class::Load => write_register(order, query, order.join(order.join(a, memory), pc)),
        Class::Store => write_memory(order, query, order.join(order.join(a, b), pc)),
        Class::Jump | Class::Bnz => Ok((order.join(pc, a), Tag(0))),
        Class::Call => Ok((pc, pc)),
        Class::Ret => Ok((memory, Tag(0))),
        Class::Out => Ok((pc, order.join(a, pc))),
        Class::Raise => write_register(order, query, order.join(order.join(d, instruction), pc)),
        Class::Nop | Class::Goto | Class::Halt => Ok((pc, Tag(0))),
    }
}

// The verdict of an order's flow rules.
pub fn judge<O: Order>(order: &O, query: &Query) -> Verdict
    ensures { result ≡ flow (O.meaning order.now) query.now }
{
    let class = Class::try_from(query.class)?;
    if !class.mask().each_used(query, |tag| order.is_label(tag)) {
        return Err(FlowViolation::NotALabel.into());
    }
    apply_rule(order, class, query)
}
