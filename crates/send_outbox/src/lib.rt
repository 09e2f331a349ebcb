// Header and payload laid into send memory at a place. The function is total.
#![tactic(auto)]

ghost use Rattle.std.specs.Prelude.{◌≡◌};
ghost use Rattle.send_outbox.specs.Outbox.{appended_of};

// What framing writes, from `at` on; nothing where it does not fit there or the payload is longer than 1,464 bytes.
pub fn append(tx: &mut [u8], at: usize, id: u32, payload: &[u8])
    ensures { tx.new ≡ appended_of tx.old at id payload.now }
{
    if tx.len() < at {
        return;
    }
    let _answer = frame::framing(id, payload, &mut tx[at..]);
}
