//! The routes of the desk.
ghost use Rattle.std.specs.Prelude.{◌≡◌, None, OnOk, IsUtf8};
ghost use Rattle.std.specs.Option.{option_map};
ghost use Rattle.matchit.specs.Params.{walk, AllText};
ghost use Rattle.matchit.specs.Route.{parse_route};
ghost use Rattle.tc_front.specs.Paths.{named_by, path_of};
ghost use Rattle.tc_front.specs.Routes.{IsFree, first_text, named_at, second_text, with_route};

use crate::paths::{Path, Post, Question};
use matchit::{InsertError, Params, Router};
use std::alloc::{AllocError, Global};
use std::marker::Model;
use std::str;

/// Which path a route is of.
#[derive(Clone, Copy, Drop)]
pub(crate) enum RouteKind {
    Acts,
    Stacks,
    Procedures,
    Places,
    Request,
    History,
    Report,
    Waiting,
    Urgent,
    Moves,
    Procedure,
    Wall,
    Opening,
}

/// The path of this kind with these texts, which are empty where it has none.
fn path_at<'a>(kind: RouteKind, first: &'a [u8], second: &'a [u8]) -> Path<'a>
    ensures { named_by result ≡ named_at kind first.now second.now }
{
    match kind {
        RouteKind::Acts => Path::Posts(Post::Acts),
        RouteKind::Stacks => Path::Posts(Post::Stacks),
        RouteKind::Procedures => Path::Posts(Post::Procedures),
        RouteKind::Places => Path::Asks(Question::Places),
        RouteKind::Request => Path::Asks(Question::Request { number: first }),
        RouteKind::History => Path::Asks(Question::History {
            request: first,
            after: second,
        }),
        RouteKind::Report => Path::Asks(Question::Report {
            from: first,
            to: second,
        }),
        RouteKind::Waiting => Path::Asks(Question::Waiting),
        RouteKind::Urgent => Path::Asks(Question::Urgent { from: first }),
        RouteKind::Moves => Path::Asks(Question::Moves { after: first }),
        RouteKind::Procedure => Path::Asks(Question::Procedure { name: first }),
        RouteKind::Wall => Path::Wall,
        RouteKind::Opening => Path::Opening,
    }
}

/// Adds a route that conflicts with none there. Fails only where memory is refused.
fn add(router: &mut Router<RouteKind>, route: &str, kind: RouteKind) -> Result<(), AllocError>
    requires { IsFree (parse_route route.now) router.old }
    ensures { OnOk result (router.new ≡ with_route route.now kind router.old) }
{
    match router.insert(route, kind) {
        Ok(()) => Ok(()),
        Err(InsertError::OutOfMemory) => Err(AllocError),
        Err(_) => unreachable!(),
    }
}

/// The two texts that a match took from its path, which are empty where it took none.
fn texts<'v>(params: &Params<'_, 'v>) -> (&'v str, &'v str)
    ensures { AllText (walk params.now.pattern.now params.now.text.now params.now.path.now params.now.names.now 0 0)
        → (result.0.now ≡ first_text (walk params.now.pattern.now params.now.text.now params.now.path.now params.now.names.now 0 0))
        × (result.1.now ≡ second_text (walk params.now.pattern.now params.now.text.now params.now.path.now params.now.names.now 0 0)) }
{
    let mut left = params.iter();
    let Some((_, first)) = left.next() else {
        return ("", "");
    };
    match left.next() {
        Some((_, second)) => (first, second),
        None => (first, ""),
    }
}

/// The desk's routes. Once they are made they answer as often as asked without any more memory.
#[derive(Drop)]
pub struct Routes {
    router: Router<RouteKind>,
}

impl Model for Routes {
    ghost use Rattle.std.specs.Prelude.{◌≡◌};
    ghost use Rattle.tc_front.specs.Routes.{KindRoutes, desk_routes};

    ghost Value = { KindRoutes };

    ghost view = { λ routes. routes.router };

    ghost invariant = { λ routes. routes.router ≡ desk_routes };
}

impl Routes {
    /// The desk's routes. Fails only where memory is refused.
    pub fn new(alloc: Global) -> Result<Routes, AllocError> {
        let mut router = Router::new(alloc);
        add(&mut router, "/acts", RouteKind::Acts)?;
        add(&mut router, "/stacks", RouteKind::Stacks)?;
        add(&mut router, "/procedures", RouteKind::Procedures)?;
        add(&mut router, "/places", RouteKind::Places)?;
        add(&mut router, "/requests/{number}", RouteKind::Request)?;
        add(
            &mut router,
            "/history/{request}/{after}",
            RouteKind::History,
        )?;
        add(&mut router, "/report/{from}/{to}", RouteKind::Report)?;
        add(&mut router, "/waiting", RouteKind::Waiting)?;
        add(&mut router, "/urgent/{from}", RouteKind::Urgent)?;
        add(&mut router, "/moves/{after}", RouteKind::Moves)?;
        add(&mut router, "/procedures/{name}", RouteKind::Procedure)?;
        add(&mut router, "/board", RouteKind::Wall)?;
        add(&mut router, "/opening", RouteKind::Opening)?;
        Ok(Routes { router })
    }

    /// The path that a request's target is: the whole target, byte for byte. One with a query part, a slash at its end,
    /// an absolute form (RFC 9112, section 3.2.2), a percent-encoded byte or an empty text in it is none of the desk's.
    /// Nor is one that is no UTF-8, which a request's head that is well formed never has (the crate `httparse`).
    pub fn path_of<'a>(&self, target: &'a [u8]) -> Option<Path<'a>>
        ensures text { IsUtf8 target.now → option_map named_by result ≡ path_of target.now }
        ensures no_text { ¬ (IsUtf8 target.now) → result ≡ None }
    {
        let Ok(text) = str::from_utf8(target) else {
            return None;
        };
        let Ok(found) = self.router.at(text) else {
            return None;
        };
        let (first, second) = texts(&found.params);
        Some(path_at(*found.value, first.as_bytes(), second.as_bytes()))
    }
}
