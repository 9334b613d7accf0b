// Real doors.
use dv_outside::{Doors, RealDoors};
use std::net::TcpListener;

#[test]
fn real_doors_without_a_free_port_give_no_connection(rt: HostRuntime) {
    let listener = TcpListener::bind(&rt, "127.0.0.1:0").expect(&rt, "a port");
    let address = listener.local_addr().expect(&rt, "its address");
    let mut doors = RealDoors::new(&rt);
    assert!(rt; doors.next().is_err());
    doors.listen(address.port());
    assert!(rt; doors.next().is_err());
}
