//! An old and a new program, with all that an update from one to the other takes.

ghost use Rattle.std.specs.Prelude.{◌≡◌};
ghost use Rattle.std.specs.Option.{option_copied};
ghost use Rattle.update_semantics.specs.Worlds.{IsWorld};

use c_types::Typed;
use client_specs::Client;
use state_xform::Xform;
use std::marker::Model;
use update_points::Points;
use version_names::Links;

/// The two versions of a program, the transformer that an update runs, the client that calls them, where
/// there is one, how the versions' names are linked, and the points at which an update may happen.
#[derive(Drop)]
pub struct World {
    old_prog: Typed,
    new_prog: Typed,
    xform: Xform,
    client: Option<Client>,
    links: Links,
    points: Points,
}

impl Model for World {
    ghost use Rattle.std.specs.Coded.{codes};
    ghost use Rattle.c_lang.specs.contracts.stmt.Stmt as stmt;
    ghost use Rattle.update_semantics.specs.Worlds.{World, IsWorld};

    ghost Value = { World };

    ghost coded = { Prim.hlevel (codes, stmt.the_row.coded) };

    ghost view = { λ w. record { old_prog = w.old_prog; new_prog = w.new_prog; xform = w.xform; client = w.client; links = w.links; points = w.points } };

    ghost invariant = { λ w. IsWorld (record { old_prog = w.old_prog; new_prog = w.new_prog; xform = w.xform; client = w.client; links = w.links; points = w.points }) };
}

impl World {
    /// The world of these parts, which were made of each other: the versions were typed in the units
    /// old and new, the transformer, the client and the links were made of these two versions, and the
    /// points of the old version and the client. It takes no memory.
    pub fn new(
        old_prog: Typed,
        new_prog: Typed,
        xform: Xform,
        client: Option<Client>,
        links: Links,
        points: Points,
    ) -> World
        requires { IsWorld (record { old_prog = old_prog; new_prog = new_prog; xform = xform; client = client; links = links; points = points }) }
        ensures { result ≡ record { old_prog = old_prog; new_prog = new_prog; xform = xform; client = client; links = links; points = points } }
    {
        World {
            old_prog,
            new_prog,
            xform,
            client,
            links,
            points,
        }
    }

    /// The old version. It takes no memory.
    pub fn old_prog(&self) -> &Typed
        ensures typed { result.now ≡ self.now.old_prog }
        ensures made { IsWorld self.now }
    {
        &self.old_prog
    }

    /// The new version. It takes no memory.
    pub fn new_prog(&self) -> &Typed
        ensures typed { result.now ≡ self.now.new_prog }
        ensures made { IsWorld self.now }
    {
        &self.new_prog
    }

    /// The transformer of the old version to the new one. It takes no memory.
    pub fn xform(&self) -> &Xform
        ensures transformer { result.now ≡ self.now.xform }
        ensures made { IsWorld self.now }
    {
        &self.xform
    }

    /// The client, where there is one. It takes no memory.
    pub fn client(&self) -> Option<&Client>
        ensures client { option_copied result ≡ self.now.client }
        ensures made { IsWorld self.now }
    {
        self.client.as_ref()
    }

    /// How the names of both versions are linked. It takes no memory.
    pub fn links(&self) -> &Links
        ensures links { result.now ≡ self.now.links }
        ensures made { IsWorld self.now }
    {
        &self.links
    }

    /// The points at which an update may happen. It takes no memory.
    pub fn points(&self) -> &Points
        ensures points { result.now ≡ self.now.points }
        ensures made { IsWorld self.now }
    {
        &self.points
    }
}
