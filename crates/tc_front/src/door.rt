//! The door: which requests are let in, and which are refused whatever they ask. A browser on this machine sends requests to 127.0.0.1 for pages of any
//! site; what it says of such a page tells it from the desk's own (Fetch Standard, section 3.2; W3C Fetch Metadata Request Headers, section 2.3).
ghost use Rattle.std.specs.Prelude.{◌≡◌, ◌↔◌, ◌++◌, All, IfNone, IfOk, IfSome, IsTrue, OnOk, length, map, option_map};
ghost use Rattle.std.specs.String.{string_bytes};
ghost use Rattle.httparse.specs.Spans.{IsHeaderWithin, header_bytes};
ghost use Rattle.tc_front.specs.Door.{Enters, IsForeignFront, both_forms, hosts_of, is_from, is_own_origin, is_own_post, is_own_site, is_taken, lets_in, passes};
ghost use Rattle.tc_front.specs.Fields.{found_view, same_name};
ghost use Rattle.tc_front.specs.Front.{Asked, IsDecided, Waits, asked_of};
ghost use Rattle.tc_front.specs.Paths.{same};

use crate::ends::{HeadSearch, skip_ends};
use crate::fields::{FieldValues, find, is_named};
use crate::front::{Decision, decide, head_room};
use crate::heads::is_foreign_head;
use crate::judge::Refused;
use crate::routes::Routes;
use httparse::spans::HeaderSpan;
use std::alloc::{AllocError, Global};
use std::marker::Model;

/// The hosts by which a desk is called. A contract sees them alone.
#[derive(Drop)]
pub struct Door {
    hosts: Vec<String>,
}

impl Model for Door {
    ghost use Rattle.std.specs.Prelude.{ℕ, List, map};
    ghost use Rattle.std.specs.String.{string_bytes};

    ghost Value = { List (List ℕ) };

    ghost view = { λ door. map string_bytes door.hosts.items };
}

/// Whether two words are the same.
fn same(a: &[u8], b: &[u8]) -> bool
    ensures { result ≡ same a.now b.now }
{
    a == b
}

/// Whether a host has this name, in letters of either case.
fn is_host(host: &[u8], own: &[u8]) -> bool
    ensures { result ≡ same_name host.now own.now }
{
    is_named(host, own)
}

/// Adds a name, alone and with the port.
fn add_name(alloc: Global, hosts: &mut Vec<String>, name: &str, port: u16) -> Result<(), AllocError>
    ensures { OnOk result (map string_bytes hosts.new.items ≡ map string_bytes hosts.old.items ++ both_forms port name.now) }
{
    hosts.push(String::from_str(alloc, name)?)?;
    hosts.push(format!(in alloc; "{name}:{port}")?)?;
    Ok(())
}

impl Door {
    /// The door of a desk at this port of the machine, which clients may call by a further name. Fails only if memory is refused.
    pub fn new(alloc: Global, port: u16, name: Option<&str>) -> Result<Door, AllocError>
        ensures { IfOk result (λ door. door ≡ hosts_of port (option_map (λ name. name.now) name.entry)) }
    {
        let mut hosts = Vec::new(alloc);
        add_name(alloc, &mut hosts, "127.0.0.1", port)?;
        add_name(alloc, &mut hosts, "localhost", port)?;
        if let Some(name) = name {
            add_name(alloc, &mut hosts, name, port)?;
        }
        Ok(Door { hosts })
    }

    /// Whether a host is one of the desk's.
    fn takes(&self, host: &[u8]) -> bool
        ensures { result ≡ is_taken self.now host.now }
    {
        self.hosts.iter().any(|own| is_host(host, own.as_bytes()))
    }

    /// Whether the origin of a page is one of the hosts, by this scheme.
    fn is_from(&self, origin: &[u8], scheme: &[u8]) -> bool
        ensures { result ≡ is_from self.now origin.now scheme.now }
    {
        origin.starts_with(scheme) && self.takes(&origin[scheme.len()..])
    }

    /// Whether an origin is the desk's own.
    fn is_own_origin(&self, origin: &[u8]) -> bool
        ensures { result ≡ is_own_origin self.now origin.now }
    {
        self.is_from(origin, b"http://") || self.is_from(origin, b"https://")
    }

    /// Whether the hosts that a request names pass.
    fn passes_host(&self, hosts: FieldValues<'_>) -> bool
        ensures { result ≡ passes (is_taken self.now) (found_view hosts.entry) }
    {
        match hosts {
            FieldValues::Absent => true,
            FieldValues::One(host) => self.takes(host),
            FieldValues::Many => false,
        }
    }

    /// Whether the origins that a request names pass.
    fn passes_origin(&self, origins: FieldValues<'_>) -> bool
        ensures { result ≡ passes (is_own_origin self.now) (found_view origins.entry) }
    {
        match origins {
            FieldValues::Absent => true,
            FieldValues::One(origin) => self.is_own_origin(origin),
            FieldValues::Many => false,
        }
    }

    /// Whether no foreign page sends a POST with these fields.
    fn is_own_post(&self, head: &[u8], headers: &[HeaderSpan]) -> bool
        requires { All (IsHeaderWithin (length head.now)) headers.now }
        ensures { result ≡ is_own_post self.now (map (header_bytes head.now) headers.now) }
    {
        self.passes_origin(find(head, headers, b"origin"))
            && passes_site(find(head, headers, b"sec-fetch-site"))
    }

    /// Whether a request of this method with these fields is let in.
    pub(crate) fn lets_in(&self, method: &[u8], head: &[u8], headers: &[HeaderSpan]) -> bool
        requires { All (IsHeaderWithin (length head.now)) headers.now }
        ensures { result ≡ lets_in self.now method.now (map (header_bytes head.now) headers.now) }
    {
        self.passes_host(find(head, headers, b"host"))
            && (!same(method, b"POST") || self.is_own_post(head, headers))
    }
}

/// Whether what a browser says of the site of a page passes.
fn passes_site(sites: FieldValues<'_>) -> bool
    ensures { result ≡ passes is_own_site (found_view sites.entry) }
{
    match sites {
        FieldValues::Absent => true,
        FieldValues::One(site) => same(site, b"same-origin") || same(site, b"none"),
        FieldValues::Many => false,
    }
}

/// Whether the head of this front is not let in.
fn is_foreign(door: &Door, text: &[u8]) -> bool
    ensures { IsTrue result ↔ IsForeignFront door.now text.now }
{
    match HeadSearch::new().end(head_room(text)) {
        Some(end) => is_foreign_head(door, skip_ends(&text[..end])),
        None => false,
    }
}

/// What is served of a front of the input, at this door: what it decides (`decide`), but a request that is not let in is refused, whatever it asks.
/// Nothing while it may yet become another thing.
pub fn enter<'a>(door: &Door, routes: &Routes, text: &'a [u8]) -> Option<Decision<'a>>
    ensures some { IfSome result (λ d. (asked : Asked) × IsDecided text.now asked × Enters door.now text.now asked (asked_of d)) }
    ensures none { IfNone result (Waits text.now) }
{
    match decide(routes, text) {
        Some(_) if is_foreign(door, text) => Some(Decision::Refused(Refused::Foreign)),
        decided => decided,
    }
}
