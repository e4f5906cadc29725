//! The board: published views, which are never removed and are read without a lock.

ghost use Rattle.std.specs.Prelude.{◌≡◌, IfErr, IfOk};
ghost use Rattle.gu_view.specs.Boards.{Shows};

use crate::view::View;
use std::alloc::{AllocError, Global};
use std::marker::Model;
use std::sync::Wait;

/// A board of published views. It only grows.
#[derive(Drop)]
pub struct Board {
    views: boxcar::Vec<View>,
}

impl Model for Board {
    ghost use Rattle.gu_view.specs.Boards.{Shelves};

    ghost Value = { Shelves };

    ghost view = { λ b. b.views };
}

/// A token for a view: the board that it is on, and its place there.
#[derive(Drop)]
pub struct ViewToken {
    shown: boxcar::Pushed<View>,
}

impl Model for ViewToken {
    ghost use Rattle.gu_view.specs.Boards.{Where};
    ghost use Rattle.gu_view.specs.View.{GroupView};

    ghost Value = { Where GroupView };

    ghost view = { λ t. t.shown };
}

impl Board {
    /// Returns an empty board.
    pub fn new(alloc: Global) -> Result<Board, AllocError> {
        Ok(Board {
            views: boxcar::Vec::new(alloc)?,
        })
    }

    /// Publishes a view for good and returns its token. Other threads may publish at the same time.
    pub fn publish<R: Wait>(&self, rt: &R, view: View) -> Result<ViewToken, (AllocError, View)>
        ensures here { IfOk result (λ token. Shows self.now token) }
        ensures shown { IfOk result (λ token. token.value ≡ view) }
        ensures handed_back { IfErr result (λ e. e.1 ≡ view) }
    {
        match self.views.push_shown(rt, view) {
            Ok(shown) => Ok(ViewToken { shown }),
            Err(view) => Err((AllocError, view)),
        }
    }

    /// Returns the published view. It takes no lock, allocates nothing and doesn't wait.
    pub fn read(&self, token: &ViewToken) -> &View
        requires { Shows self.now token.now }
        ensures { result.now ≡ token.now.value }
    {
        self.views.value(&token.shown)
    }
}
