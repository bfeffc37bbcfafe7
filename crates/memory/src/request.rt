ghost use Rattle.std.specs.Prelude.{◌≡◌};
ghost use Rattle.memory.specs.Requests.{response, words_after};

use crate::interface::Memory;

// One of a memory's five functions, with its arguments in their order: address first.
#[derive(Debug, Clone, Copy, PartialEq, Eq)]
pub enum Request {
    Size,
    Look(usize),
    Lock(usize, u64, u8),
    Put(usize, u64, u64),
    Free(usize, u8),
}

// What a memory answers: how many words it has, what a look shows, or yes or no.
#[derive(Debug, Clone, Copy, PartialEq, Eq)]
pub enum Response {
    Count(usize),
    Shown(Option<(u64, u8, u64)>),
    Done(bool),
}

// Makes one request of a memory.
pub fn ask<M: Memory>(memory: &mut M, request: Request) -> Response
    ensures answer { result ≡ response (M.words memory.old) request }
    ensures after { M.words memory.new ≡ words_after (M.words memory.old) request }
{
    match request {
        Request::Size => Response::Count(memory.size()),
        Request::Look(a) => Response::Shown(memory.look(a)),
        Request::Lock(a, version, holder) => Response::Done(memory.lock(a, version, holder)),
        Request::Put(a, version, value) => Response::Done(memory.put(a, version, value)),
        Request::Free(a, holder) => Response::Done(memory.free(a, holder)),
    }
}
