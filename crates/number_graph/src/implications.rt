//! Implications among numbers, and what follows from them.
ghost use Rattle.std.specs.Prelude.{◌≡◌, IfOk, OnOk, OnErr};
ghost use Rattle.number_graph.specs.Graphs.{AreFlagsOf};
ghost use Rattle.number_graph.specs.Implications.{AddsImplication, AreImplicationsWithin};
ghost use Rattle.number_graph.specs.Implications.{AreNoImplications, Follows};

use crate::derivation::derivation;
use crate::links::Links;
use std::alloc::{AllocError, Global};
use std::marker::Model;

/// Implications, each with premises and a conclusion.
#[derive(Drop)]
pub struct Implications {
    premises: Links,
    conclusions: Vec<u16>,
}

impl Model for Implications {
    ghost use Rattle.std.specs.Prelude.{◌≡◌, length};
    ghost use Rattle.number_graph.specs.Implications.{ImplicationList};

    ghost Value = { ImplicationList };

    ghost view = { λ i. record { premises = i.premises; conclusions = i.conclusions.items } };

    ghost invariant = { λ i. length i.premises ≡ length i.conclusions.items };
}

impl Implications {
    /// No implications.
    pub fn new(alloc: Global) -> Result<Implications, AllocError>
        ensures { IfOk result AreNoImplications }
    {
        Ok(Implications {
            premises: Links::new(alloc, 0)?,
            conclusions: Vec::new(alloc),
        })
    }

    /// Adds the implication from these premises to this conclusion. From no premises the conclusion
    /// follows at once.
    pub fn add(&mut self, premises: &[u16], conclusion: u16) -> Result<(), AllocError>
        ensures ok { OnOk result (AddsImplication self.old self.new premises.now conclusion) }
        ensures err { OnErr result (self.new ≡ self.old) }
    {
        self.conclusions.reserve(1)?;
        self.premises.push(premises)?;
        self.conclusions.push_reserved(conclusion);
        Ok(())
    }
}

/// For each number below the total, whether it follows from the implications. Each premise is
/// looked at once or twice.
pub fn consequences(
    alloc: Global,
    total: usize,
    implications: &Implications,
) -> Result<Vec<bool>, AllocError>
    requires { AreImplicationsWithin total implications.now }
    ensures { IfOk result (λ flags. AreFlagsOf total (Follows implications.now) flags.items) }
{
    let premises = &implications.premises;
    let conclusions = implications.conclusions.as_slice();
    let found = derivation(alloc, total, premises, conclusions)?;
    Ok(found.flags)
}
