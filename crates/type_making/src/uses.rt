//! What an inference notes and writes of itself: the number of a rule, and the unit, the note and the item of a conversion.
ghost use Rattle.std.specs.Prelude.{◌≡◌, ◌≤◌, [], ◌∷◌};
ghost use Rattle.pc_terms.specs.Formed.{IsFormed};
ghost use Rattle.pc_rules.specs.DirectedTyping.{rule_number, conv};
ghost use Rattle.pc_rules.specs.Follows.{Follows};
ghost use Rattle.cert_rules.specs.declared.item.CertItem.TheVariants.{Conv};
ghost use Rattle.cert_rules.specs.Writing.{writing};
ghost use Rattle.script_making.specs.Makes.{Makes};

use cert_rules::item::CertItem;
use pc_rules::meter::Meter;
use pc_rules::stop::{Halt, Stop};
use pc_terms::term::{Node, Term};
use script_making::draft::Draft;

/// The number of the term's rule.
pub(crate) fn rule_number(t: &Term) -> u8
    ensures is { result ≡ rule_number t.now }
    ensures low { 1 ≤ result }
    ensures high { result ≤ 12 }
    ensures formed { IsFormed t.now }
{
    match t.view() {
        Node::Rel(_) => 1,
        Node::Sort(_) => 2,
        Node::Prod(_, _) => 3,
        Node::Lambda(_, _) => 4,
        Node::LetIn(_, _, _) => 5,
        Node::App(_, _) => 6,
        Node::Const(_) => 7,
        Node::Ind(_) => 8,
        Node::Construct(_, _) => 9,
        Node::Case(_) => 10,
        Node::Fix(_, _) => 11,
    }
}

/// The unit of a conversion, and the note of its use.
pub(crate) fn conv(m: &mut Meter) -> Result<(), Halt>
    ensures follows { Follows (conv m.old.account) result m.old m.new }
{
    if !m.tick() {
        return Err(Halt::Stop(Stop::Spent));
    }
    m.note(12);
    Ok(())
}

/// The unit of a conversion, the note of its use, and its item.
pub(crate) fn put_conv(draft: &mut Draft) -> Result<(), Halt>
    ensures makes { Makes (writing (Conv ∷ []) draft.old.meter.account (conv draft.old.meter.account)) result draft.old draft.new }
{
    conv(&mut draft.meter)?;
    draft.put(CertItem::Conv)
}
