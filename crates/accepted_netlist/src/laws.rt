//! What a reader and the crates above may want to know of the definitions. The law is a contract over all bytes; its
//! body makes no call that does anything.

ghost use Rattle.accepted_netlist.specs.Laws.{AcceptedOrRefused, OneNetlist, OneRefusal};

/// Bytes are the text of at most one netlist, at most one refusal is due for them, and none where the netlist is
/// accepted. So [`accept`](crate::accept) answers each refusal exactly where it is due, but for want of memory.
pub fn one_netlist_or_refusal()
    ensures netlist { OneNetlist }
    ensures refusal { OneRefusal }
    ensures either { AcceptedOrRefused }
{
    rtlil_tree::one_tree();
    rtlil_tree::one_refusal();
}
