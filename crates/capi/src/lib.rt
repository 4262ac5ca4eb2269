// The interface for C and for whoever calls as C does: one exported function over `engine::solve`. include/whittermay.h declares it and says what its numbers mean.
#![tactic(auto)]

ghost use Rattle.std.specs.Prelude.{◌≡◌};
ghost use Rattle.machine.specs.Call.{call};
ghost use Rattle.capi.specs.Six.{reply_six};

use machine::Reply;

fn six(x: Reply) -> [u32; 6]
    ensures { result ≡ reply_six x }
{
    let y = x.tally;
    match x.outcome {
        Err(refusal) => [
            u32::from(refusal.test),
            u32::from(refusal.failing),
            0,
            0,
            0,
            0,
        ],
        Ok(ending) => [0, 0, u32::from(ending), y.answers, y.assumed, y.units],
    }
}

// A whole call. No test of the lengths is left to the caller: a workspace or a buffer of another size is refused as document 01 says.
#[unsafe(no_mangle)]
pub extern "C" fn whittermay_solve(
    book: &[u8],
    budget: u32,
    wanted: u32,
    workspace: &mut [u32],
    out: &mut [u8],
    reply: &mut [u32; 6],
)
    ensures reply_after { reply.new ≡ reply_six (call book.now budget wanted workspace.old out.old).reply }
    ensures workspace_after { workspace.new ≡ (call book.now budget wanted workspace.old out.old).workspace }
    ensures out_after { out.new ≡ (call book.now budget wanted workspace.old out.old).out }
{
    *reply = six(engine::solve(book, budget, wanted, workspace, out));
}
