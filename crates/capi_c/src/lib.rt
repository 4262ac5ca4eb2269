// The archive that C and Rust link to: the exported function of `capi`, in a static library of its own, since a crate is a library or a static library.
#![tactic(auto)]

ghost use Rattle.std.specs.Prelude.{◌≡◌};
ghost use Rattle.machine.specs.Call.{call};
ghost use Rattle.capi.specs.Six.{reply_six};

// A whole call. No test of the lengths is left to the caller: a workspace or a buffer of another size is refused as document 01 says.
#[unsafe(no_mangle)]
pub extern "C" fn whittermay_solve(
    book: &[u8],
    budget: u32,
    wanted: u32,
    workspace: &mut [u32],
    out: &mut [u8],
    reply: &mut [u32; 6],
)
    ensures reply_after { reply.new ≡ reply_six (call book.now budget wanted workspace.old out.old).reply }
    ensures workspace_after { workspace.new ≡ (call book.now budget wanted workspace.old out.old).workspace }
    ensures out_after { out.new ≡ (call book.now budget wanted workspace.old out.old).out }
{
    capi::whittermay_solve(book, budget, wanted, workspace, out, reply);
}
