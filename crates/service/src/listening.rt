//! Where a server accepts connections: as the command line has it, and as it is printed.

ghost use Rattle.std.specs.Prelude.{◌≡◌, ◌↔◌, IsTrue, OnErr, IfOk, option_map};
ghost use Rattle.std.specs.Net.Text.{ipv4_text, socket_v4_text};
ghost use Rattle.service.specs.Listening.{AreSame, IsHttpIf, IsListenText, IsListeningReported, IsNoHttp, IsNoListenText, http_text, listening_line};
ghost use Rattle.service.specs.Outputs.{Reports};

use crate::output::Output;
use crate::reporting::report_unwritten;
use route_text::{BadText, read_ipv4, read_number};
use std::alloc::Global;
use std::io::Write;
use std::net::{Ipv4Addr, SocketAddrV4};

/// The greatest number of a port.
const LAST_PORT: u64 = 65_535;

/// The address and the port in a text, with a colon between.
pub(crate) fn read_listen(text: &str) -> Result<SocketAddrV4, BadText>
    ensures found { IfOk result (IsListenText text.now) }
    ensures none { OnErr result (IsNoListenText text.now) }
{
    let Some((address, port)) = text.split_once(':') else {
        return Err(BadText);
    };
    let octets = read_ipv4(address)?;
    let port = read_number(port, LAST_PORT)?;
    Ok(SocketAddrV4::new(Ipv4Addr::from_octets(octets), port as u16))
}

/// Whether both can't be listened on: they are the same, and the system doesn't choose the ports.
fn are_same(listen: SocketAddrV4, http: SocketAddrV4) -> bool
    ensures { IsTrue result ↔ AreSame listen http }
{
    http == listen && listen.port() != 0
}

/// The address and port of HTTP in the text, if there is a text. They have to differ from those of `listen`, unless the
/// port is 0.
pub(crate) fn read_http(
    listen: SocketAddrV4,
    text: Option<&str>,
) -> Result<Option<SocketAddrV4>, BadText>
    ensures found { IfOk result (IsHttpIf listen (option_map (λ t. t.now) text.entry)) }
    ensures none { OnErr result (IsNoHttp listen (option_map (λ t. t.now) text.entry)) }
{
    let Some(text) = text else {
        return Ok(None);
    };
    let http = read_listen(text)?;
    if are_same(listen, http) {
        return Err(BadText);
    }
    Ok(Some(http))
}

/// Writes an IPv4 address: four numbers with dots between them.
fn write_ipv4<W: Write>(out: &mut Output<W>, octets: [u8; 4])
    ensures text { Reports out.old out.new (ipv4_text octets) }
{
    let [a, b, c, d] = octets;
    out.number(u64::from(a));
    out.text(".");
    out.number(u64::from(b));
    out.text(".");
    out.number(u64::from(c));
    out.text(".");
    out.number(u64::from(d));
}

/// Writes an address and a port, with a colon between.
fn write_place<W: Write>(out: &mut Output<W>, place: &SocketAddrV4)
    ensures text { Reports out.old out.new (socket_v4_text place.now) }
{
    write_ipv4(out, place.ip().octets());
    out.text(":");
    out.number(u64::from(place.port()));
}

/// Writes where HTTP is served, if it is.
fn write_http<W: Write>(out: &mut Output<W>, http: Option<SocketAddrV4>)
    ensures text { Reports out.old out.new (http_text http) }
{
    let Some(place) = http else {
        return;
    };
    out.text(" http ");
    write_place(out, &place);
}

/// Writes where connections are accepted.
fn write_listening<W: Write>(out: &mut Output<W>, bound: &SocketAddrV4, http: Option<SocketAddrV4>)
    ensures line { Reports out.old out.new (listening_line bound.now http) }
{
    out.text("listening ");
    write_place(out, bound);
    write_http(out, http);
    out.text("\n");
}

/// Prints where connections are accepted, `listening ADDRESS:PORT`, and after ` http ` the address and port of HTTP, if there are such. Then it
/// writes out what is buffered. The exit status of the program is 0, or 1 if not all could be written, which `err` then shows.
pub fn report_listening<W: Write, E: Write>(
    alloc: Global,
    bound: &SocketAddrV4,
    http: Option<SocketAddrV4>,
    out: &mut Output<W>,
    err: &mut Output<E>,
) -> u8
    ensures reported { IsListeningReported bound.now http result out.old out.new err.old err.new }
{
    write_listening(out, bound, http);
    out.flush();
    if out.has_failed() {
        report_unwritten(alloc, out, err);
        return 1;
    }
    0
}
