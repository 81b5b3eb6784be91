// Sending and requesting along the edges of a vertex.
ghost use Rattle.std.specs.Prelude.{◌≡◌, OnOk, IfErr, IsTrue};
ghost use Rattle.px_program.specs.Numbers.{num, is_num, lesser_rule};
ghost use Rattle.px_program.specs.Posted.{Posted, contributed, StaysOpen, StopsPosting};
ghost use Rattle.px_program.specs.Saturating.{saturating_sum};
ghost use Rattle.px_programs.specs.Entries.{entries_rule};
ghost use Rattle.px_programs.specs.Along.{along, distances, backs, with_sends, with_requests, SendsPart, RequestsPart};

use crate::entries::entry_of;
use crate::numbers::bytes_of;
use px_core::Stop;
use px_program::Outbox;
use px_record::VertexBuf;

/// Sends the payload along each edge, in order.
pub fn send_along<O: Outbox>(v: &VertexBuf, payload: &[u8], out: &mut O) -> Result<(), Stop>
    requires open { IsTrue (O.is_open out.old) }
    requires valid { IsTrue ((O.made_for out.old).message.valid payload.now) }

    ensures ok { OnOk result ((p : Posted) → O.took out.old p → O.took out.new (with_sends (along payload.now v.now.vertex.edges) p)) }
    ensures open { OnOk result (StaysOpen (O.is_open out.new) (O.faults out.old) (O.faults out.new)) }
    ensures err { IfErr result (StopsPosting (O.took out.old) (O.took out.new) (SendsPart (along payload.now v.now.vertex.edges)) (O.made_for out.old) (O.is_open out.new) (O.faults out.old) (O.faults out.new)) }
    ensures pieces { O.pieces out.new ≡ O.pieces out.old }
    ensures stays { O.made_for out.new ≡ O.made_for out.old }
{
    for i in 0..v.edges() {
        let (dst, _) = v.edge(i);
        out.send(dst, payload)?;
    }
    Ok(())
}

/// Requests this of each edge's target, in order.
pub fn request_along<O: Outbox>(v: &VertexBuf, verdict: &[u8], out: &mut O) -> Result<(), Stop>
    requires open { IsTrue (O.is_open out.old) }
    requires valid { IsTrue ((O.made_for out.old).verdict.valid verdict.now) }

    ensures ok { OnOk result ((p : Posted) → O.took out.old p → O.took out.new (with_requests (along verdict.now v.now.vertex.edges) p)) }
    ensures open { OnOk result (StaysOpen (O.is_open out.new) (O.faults out.old) (O.faults out.new)) }
    ensures err { IfErr result (StopsPosting (O.took out.old) (O.took out.new) (RequestsPart (along verdict.now v.now.vertex.edges)) (O.made_for out.old) (O.is_open out.new) (O.faults out.old) (O.faults out.new)) }
    ensures pieces { O.pieces out.new ≡ O.pieces out.old }
    ensures stays { O.made_for out.new ≡ O.made_for out.old }
{
    for i in 0..v.edges() {
        let (dst, _) = v.edge(i);
        out.request(dst, verdict)?;
    }
    Ok(())
}

/// Contributes the number, and sends the payload along each edge, in order.
pub fn post_along<O: Outbox>(v: &VertexBuf, n: u64, payload: &[u8], out: &mut O) -> Result<(), Stop>
    requires open { IsTrue (O.is_open out.old) }
    requires valid { IsTrue ((O.made_for out.old).message.valid payload.now) }

    ensures ok { OnOk result ((p : Posted) → O.took out.old p → O.took out.new (with_sends (along payload.now v.now.vertex.edges) (contributed n p))) }
    ensures open { OnOk result (StaysOpen (O.is_open out.new) (O.faults out.old) (O.faults out.new)) }
    ensures err { IfErr result (StopsPosting (O.took out.old) (O.took out.new) (λ p. SendsPart (along payload.now v.now.vertex.edges) (contributed n p)) (O.made_for out.old) (O.is_open out.new) (O.faults out.old) (O.faults out.new)) }
    ensures pieces { O.pieces out.new ≡ O.pieces out.old }
    ensures stays { O.made_for out.new ≡ O.made_for out.old }
{
    out.contribute(n);
    send_along(v, payload, out)
}

// The message of the distance over an edge of this weight.
fn distance_over(d: u64, weight: u32) -> [u8; 8]
    ensures bytes { result ≡ num (saturating_sum d weight) }
    ensures valid { IsTrue (is_num result) }
{
    bytes_of(d.saturating_add(u64::from(weight)))
}

/// Sends along each edge, in order, the distance to its target, where the vertex has the distance `d`.
pub fn send_distances<O: Outbox>(v: &VertexBuf, d: u64, out: &mut O) -> Result<(), Stop>
    requires open { IsTrue (O.is_open out.old) }
    requires message { (O.made_for out.old).message ≡ lesser_rule }

    ensures ok { OnOk result ((p : Posted) → O.took out.old p → O.took out.new (with_sends (distances d v.now.vertex.edges) p)) }
    ensures open { OnOk result (StaysOpen (O.is_open out.new) (O.faults out.old) (O.faults out.new)) }
    ensures err { IfErr result (StopsPosting (O.took out.old) (O.took out.new) (SendsPart (distances d v.now.vertex.edges)) (O.made_for out.old) (O.is_open out.new) (O.faults out.old) (O.faults out.new)) }
    ensures pieces { O.pieces out.new ≡ O.pieces out.old }
    ensures stays { O.made_for out.new ≡ O.made_for out.old }
{
    for i in 0..v.edges() {
        let (dst, weight) = v.edge(i);
        out.send(dst, &distance_over(d, weight))?;
    }
    Ok(())
}

/// Sends along each edge, in order, the entry of the edge back.
pub fn send_back<O: Outbox>(v: &VertexBuf, out: &mut O) -> Result<(), Stop>
    requires open { IsTrue (O.is_open out.old) }
    requires message { (O.made_for out.old).message ≡ entries_rule }

    ensures ok { OnOk result ((p : Posted) → O.took out.old p → O.took out.new (with_sends (backs v.now.vid v.now.vertex.edges) p)) }
    ensures open { OnOk result (StaysOpen (O.is_open out.new) (O.faults out.old) (O.faults out.new)) }
    ensures err { IfErr result (StopsPosting (O.took out.old) (O.took out.new) (SendsPart (backs v.now.vid v.now.vertex.edges)) (O.made_for out.old) (O.is_open out.new) (O.faults out.old) (O.faults out.new)) }
    ensures pieces { O.pieces out.new ≡ O.pieces out.old }
    ensures stays { O.made_for out.new ≡ O.made_for out.old }
{
    for i in 0..v.edges() {
        let (dst, weight) = v.edge(i);
        out.send(dst, &entry_of(v.vid(), weight))?;
    }
    Ok(())
}
