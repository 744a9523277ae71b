//! Laws of this crate's types, as contracts of functions: what `==` tests.

ghost use Rattle.std.specs.Prelude.{◌≡◌, ◌↔◌, IsTrue};
ghost use Rattle.html_flow_faults.specs.ConstructFaults.{construct_fault_view};

use crate::construct_fault::ConstructFault;
use crate::fault::FlowFault;

/// Faults of conversion are equal if they are of one kind, with the same span.
pub fn equal_flow_faults(a: FlowFault, b: FlowFault) -> bool
    ensures { IsTrue result ↔ (a ≡ b) }
{
    a == b
}

/// Faults of construction are equal if they are of one kind, with the same spans and faults of
/// casts.
pub fn equal_construct_faults(a: &ConstructFault, b: &ConstructFault) -> bool
    ensures { IsTrue result ↔ (construct_fault_view a.now ≡ construct_fault_view b.now) }
{
    a == b
}
