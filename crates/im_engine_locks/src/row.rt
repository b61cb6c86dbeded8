//! One or two requests.

ghost use Rattle.std.specs.Prelude.{◌≡◌, ◌≤◌, take, ◌∷◌, []};

use crate::request::Request;

/// The requests of a step that asks one lock, or two: the first so many of these.
#[derive(Clone, Copy)]
pub struct Row<'a> {
    requests: [Request<'a>; 2],
    count: usize,
    ghost within: { count ≤ 2 },
}

impl<'a> Row<'a> {
    /// One request.
    pub fn one(request: Request<'a>) -> Row<'a>
        ensures { take result.count result.requests ≡ request.entry ∷ [] }
    {
        Row {
            requests: [request, request],
            count: 1,
        }
    }

    /// Two requests.
    pub fn two(first: Request<'a>, second: Request<'a>) -> Row<'a>
        ensures { take result.count result.requests ≡ first.entry ∷ second.entry ∷ [] }
    {
        Row {
            requests: [first, second],
            count: 2,
        }
    }

    /// The requests, as `try_all` takes them.
    pub fn as_slice(&self) -> &[Request<'a>]
        ensures { result.now ≡ take self.now.count self.now.requests }
    {
        &self.requests[..self.count]
    }
}
