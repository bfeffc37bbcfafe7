ghost use Rattle.std.specs.Prelude.{◌≡◌, is_ok, IfOk, if◌then◌else◌, Decides};
ghost use Rattle.memory.specs.Laws.{Compared, Laws};
ghost use Rattle.memory.specs.Requests.{response, responses, words_after, words_after_all};

use crate::interface::Memory;
use crate::request::{Request, Response, ask};
use std::alloc::{AllocError, Global};

// Makes the requests in order and gives the responses, or makes none of them where there is no room for the responses.
#[tactic(auto, using(crate::proofs::Requests::running))]
pub fn run<M: Memory>(
    heap: Global,
    memory: &mut M,
    requests: &[Request],
) -> Result<Vec<Response>, AllocError>
    ensures answers { IfOk result (λ rs. rs.items ≡ responses (M.words memory.old) requests.now) }
    ensures after { let ws = M.words memory.old in M.words memory.new ≡ (if is_ok result then words_after_all ws requests.now else ws) }
    ensures laws { IfOk result (λ rs. Laws (M.words memory.old) requests.now rs.items (M.words memory.new)) }
{
    let mut given = Vec::with_capacity(heap, requests.len())?;
    for request in requests {
        let response = ask(memory, *request);
        given.push_reserved(response);
    }
    Ok(given)
}

// Makes one request of two memories, and says whether the responses are alike.
fn ask_both<A: Memory, B: Memory>(one: &mut A, other: &mut B, request: Request) -> bool
    ensures answer { Decides result (response (A.Memory.words one.old) request ≡ response (B.Memory.words other.old) request) }
    ensures one { A.Memory.words one.new ≡ words_after (A.Memory.words one.old) request }
    ensures other { B.Memory.words other.new ≡ words_after (B.Memory.words other.old) request }
{
    ask(one, request) == ask(other, request)
}

// Makes the requests of two memories, and says whether all responses are alike.
#[tactic(auto, using(crate::proofs::Requests::running))]
pub fn alike<A: Memory, B: Memory>(one: &mut A, other: &mut B, requests: &[Request]) -> bool
    ensures { Compared (A.Memory.words one.old) (B.Memory.words other.old) requests.now result (A.Memory.words one.new) (B.Memory.words other.new) }
{
    let mut same = true;
    for request in requests {
        same &= ask_both(one, other, *request);
    }
    same
}
