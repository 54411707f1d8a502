//! Sockets of the system over loopback. The system chooses the port of each listener, so that tests can run side by
//! side and again.

use crate::facts::{
    a_connect_ends_a_wait, a_connect_where_nobody_listens_fails,
    a_node_that_was_gathered_accepts_again, bytes_pass_both_ways, waiting_takes_no_processor,
    what_comes_ends_a_wait, what_was_written_before_a_close_is_read,
};
use crate::pieces::{FOUR_MEGABYTES, noise};
use crate::socket_ends::here;
use m2_addr::Addr;
use m2_mio::MioFabric;
use std::net::{Net, OpenListener, TcpListener};
use std::process::Abort;

/// An address at which nobody listens: the system gave its port to a listener that is gone again.
fn unused<R: Net + Abort>(rt: &R) -> Addr {
    let listener = TcpListener::bind(rt, "127.0.0.1:0").expect(rt, "a listener");
    here(listener.local_addr().expect(rt, "an address").port())
}

#[test]
fn bytes_over_loopback(rt: HostRuntime) {
    let mut fabric = MioFabric::new(rt, rt.alloc());
    let noise = noise(&rt, rt.alloc(), FOUR_MEGABYTES);
    let (there, back) = noise.split_at(noise.len() / 2);
    assert!(rt; bytes_pass_both_ways(&rt, &mut fabric, &unused(&rt), there, back));
    assert!(rt; what_was_written_before_a_close_is_read(&rt, &mut fabric, &unused(&rt), there));
}

#[test]
fn ports_over_loopback(rt: HostRuntime) {
    let mut fabric = MioFabric::new(rt, rt.alloc());
    assert!(rt; a_connect_where_nobody_listens_fails(&rt, &mut fabric, &unused(&rt)));
    assert!(rt; a_node_that_was_gathered_accepts_again(&rt, rt.alloc(), &mut fabric, &unused(&rt)));
}

#[test]
fn waits_over_loopback(rt: HostRuntime) {
    let mut fabric = MioFabric::new(rt, rt.alloc());
    assert!(rt; waiting_takes_no_processor(&rt, &mut fabric, &unused(&rt)));
    assert!(rt; what_comes_ends_a_wait(&rt, &mut fabric, &unused(&rt)));
    assert!(rt; a_connect_ends_a_wait(&rt, &mut fabric, &unused(&rt)));
}
