//! How records go into the queue, come out of it, and end.
ghost use Rattle.std.specs.Prelude.{◌≡◌, IfErr, IfNone, IfSome, OnErr, OnOk};
ghost use Rattle.wal_base.specs.Prefixes.{IsPrefixOf};
ghost use Rattle.record_queue.specs.Nodes.{IsFilledNode};
ghost use Rattle.record_flow.specs.Views.{ended_view};
ghost use Rattle.record_flow.specs.Flows.{CanSend, HasEnded, IsNextTaken, SendsRecord, TakesRecord, TookAll, WasEmpty};
ghost use Rattle.record_flow.specs.Passes.{flow_id, flush_queue, take_view, send_queue, send_view};

use crate::flow::RecordFlow;
use crate::passes::{FlushPass, SendPass};
use crate::rule::{Ending, Pop, Push};
use record_queue::RecordNode;
use std::sync::Wait;

impl RecordFlow {
    /// Sends a filled node after all others, however many are on their way. The node comes back only if there was no
    /// memory for a block of the queue, which one node in 31 needs; the pass then knows what it knew before, and the
    /// node can be sent again. The call waits for nobody: takes do not meet it, and no other pass pushes.
    pub fn send<R: Wait>(
        &self,
        rt: &R,
        pass: &mut SendPass,
        node: RecordNode,
    ) -> Result<(), RecordNode>
        requires queue { send_queue pass.old ≡ flow_id self.now }
        requires next { CanSend (send_view pass.old) node }
        ensures queue { send_queue pass.new ≡ send_queue pass.old }
        ensures sent { OnOk result (SendsRecord node (send_view pass.old) (send_view pass.new)) }
        ensures back { IfErr result (λ back. back ≡ node) }
        ensures same { OnErr result (send_view pass.new ≡ send_view pass.old) }
    {
        self.nodes.push_as::<Push, R>(rt, &mut pass.pass, node)
    }

    /// Takes the first node on its way, whose record comes next after those taken before. `None` only if the queue was
    /// empty at one moment of the call; the pass then knows what it knew before, and after `end` all that was sent is
    /// taken. The call may spin while the other side is in the midst of a push.
    pub fn take<R: Wait>(&self, rt: &R, pass: &mut FlushPass) -> Option<RecordNode>
        requires queue { flush_queue pass.old ≡ flow_id self.now }
        ensures queue { flush_queue pass.new ≡ flush_queue pass.old }
        ensures filled { IfSome result (λ node. IsFilledNode node) }
        ensures taken { IfSome result (λ node. TakesRecord node (take_view pass.old) (take_view pass.new)) }
        ensures next { IfSome result (λ node. IsNextTaken node (take_view pass.old)) }
        ensures same { IfNone result (take_view pass.new ≡ take_view pass.old) }
        ensures empty { IfNone result (WasEmpty (take_view pass.old)) }
        ensures all { IfNone result (HasEnded (take_view pass.old) → TookAll (take_view pass.old)) }
    {
        self.nodes.pop_as::<Pop, R>(rt, &mut pass.pass)
    }

    /// Nothing more is sent: the pass that pops takes in the one that pushed. What is on its way can still be taken,
    /// and what was taken stays as it was. The call waits for nobody, since no pass pushes any more.
    pub fn end<R: Wait>(&self, rt: &R, pass: &mut FlushPass, sends: SendPass)
        requires queue { flush_queue pass.old ≡ flow_id self.now }
        requires sends { send_queue sends ≡ flow_id self.now }
        ensures queue { flush_queue pass.new ≡ flush_queue pass.old }
        ensures ended { take_view pass.new ≡ ended_view (send_view sends) (take_view pass.old) }
        ensures prefix { IsPrefixOf (take_view pass.old).taken (send_view sends).sent }
    {
        let SendPass { pass: other } = sends;
        self.nodes.absorb::<Ending>(&mut pass.pass, other);
        self.nodes.len_as::<Pop, R>(rt, &mut pass.pass);
    }
}
