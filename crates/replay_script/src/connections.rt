//! The state of connections.

ghost use Rattle.std.specs.Prelude.{◌≡◌, ◌-◌, ◌≤◌, ◌<◌, All, Some, IfOk, OnOk, insert, length, set, slice_get};
ghost use Rattle.replay_script.specs.Keeping.{connection_at, links_at, with_open, with_chain, IsClosedConnection};
ghost use Rattle.replay_script.specs.EntryKinds.{without};

use crate::chain::{EntryOutline, EntryOutlines};
use crate::limits::MAX_CONNECTIONS;
use mrpc_table::Memory;
use std::alloc::Global;
use std::marker::Model;

// The size of a connection's heap in words, if it is open, and the outline of its chain.
#[derive(Drop)]
pub(crate) struct ConnectionState {
    pub words: Option<u32>,
    pub links: EntryOutlines,
}

// All connections, from number 1 on.
#[derive(Drop)]
pub(crate) struct ConnectionStates {
    connections: Vec<ConnectionState>,
}

impl Model for ConnectionStates {
    ghost use Rattle.std.specs.Prelude.{◌≡◌, List, length};
    ghost use Rattle.replay_script.specs.declared.connections.ConnectionState.{ConnectionState};

    ghost Value = { List ConnectionState };

    ghost view = { λ c. c.connections.items };

    ghost invariant = { λ c. length c.connections.items ≡ 16 };
}

impl ConnectionStates {
    // No connection is open.
    pub(crate) fn new(alloc: Global) -> Result<ConnectionStates, Memory>
        ensures fresh { IfOk result (λ c. All IsClosedConnection c) }
        ensures whole { IfOk result (λ c. length c ≡ 16) }
    {
        let mut connections = Vec::new(alloc);
        for _ in 0..MAX_CONNECTIONS {
            connections.push(ConnectionState {
                words: None,
                links: EntryOutlines::new(alloc),
            })?;
        }
        Ok(ConnectionStates { connections })
    }

    // The state of the connection with a number.
    pub(crate) fn at(&self, conn: u64) -> &ConnectionState
        requires { (1 ≤ conn) × (conn ≤ 16) }
        ensures { result.now ≡ connection_at self.now conn }
    {
        &self.connections[conn as usize - 1]
    }

    // Opens a connection with a heap of this many words.
    pub(crate) fn open(&mut self, conn: u32, words: u32)
        requires { (1 ≤ conn) × (conn ≤ 16) }
        ensures { self.new ≡ with_open self.old conn words }
    {
        self.connections[conn as usize - 1].words = Some(words);
    }

    // Inserts an entry at a position of a connection's chain.
    pub(crate) fn attach(&mut self, conn: u32, at: u32, link: EntryOutline) -> Result<(), Memory>
        requires conn { (1 ≤ conn) × (conn ≤ 16) }
        requires place { at ≤ length (links_at self.old conn) }
        requires room { length (links_at self.old conn) < 8 }
        ensures { OnOk result (self.new ≡ with_chain self.old conn (insert (links_at self.old conn) at link)) }
    {
        self.connections[conn as usize - 1]
            .links
            .attach(at as usize, link)
    }

    // Removes the entries of a name from a connection's chain.
    pub(crate) fn detach(&mut self, conn: u32, name: &[u8])
        requires { (1 ≤ conn) × (conn ≤ 16) }
        ensures { self.new ≡ with_chain self.old conn (without name.now (links_at self.old conn)) }
    {
        self.connections[conn as usize - 1].links.detach(name);
    }
}
