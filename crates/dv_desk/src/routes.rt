// What a request asks for.
ghost use Rattle.std.specs.Prelude.{◌≡◌, option_map};
ghost use Rattle.dv_print.specs.Words.{behind as behind_front};
ghost use Rattle.dv_desk.specs.Routes.{asked as asked_of, asked_as, asked_at, date_of as date_asked, mart_route, pit_route, route_as, route_of, table_route, windows_asked};

use dv_http::Request;

/// Where a path leads.
#[derive(Clone, Copy)]
pub(crate) enum Route<'a> {
    Windows,
    Mart { word: &'a [u8] },
    Table { name: &'a [u8] },
    Pit { hub: &'a [u8] },
    NoRoute,
}

/// The methods that a route has.
#[derive(Clone, Copy)]
pub enum Allowed {
    Get,
    GetPost,
}

/// What is only read.
#[derive(Clone, Copy)]
pub(crate) enum Query<'a> {
    /// The heads of the windows.
    Heads,
    /// A mart, at a date.
    MartAt { word: &'a [u8], date: &'a [u8] },
    /// A raw table with all its rows.
    TableOf { name: &'a [u8] },
    /// The point-in-time table of a hub in the snapshot at a date.
    PitAt { hub: &'a [u8], date: &'a [u8] },
}

/// What a request asks for.
#[derive(Clone, Copy)]
pub(crate) enum Routed<'a> {
    /// The window of a body is to be loaded.
    Load { body: &'a [u8] },
    /// This is to be read.
    Read(Query<'a>),
    /// There is no such route.
    NotFound,
    /// The route has no such method, but these.
    NotAllowed { methods: Allowed },
}

// What stands behind a front, where the path begins with it.
fn behind<'a>(front: &[u8], path: &'a [u8]) -> Option<&'a [u8]>
    ensures { option_map (λ rest. rest.now) result ≡ behind_front front.now path.now }
{
    path.strip_prefix(front)
}

fn to_mart(path: &[u8]) -> Option<Route<'_>>
    ensures { option_map route_as result ≡ mart_route path.now }
{
    let word = behind(b"/marts/", path)?;
    Some(Route::Mart { word })
}

fn to_table(path: &[u8]) -> Option<Route<'_>>
    ensures { option_map route_as result ≡ table_route path.now }
{
    let name = behind(b"/tables/", path)?;
    Some(Route::Table { name })
}

fn to_pit(path: &[u8]) -> Option<Route<'_>>
    ensures { option_map route_as result ≡ pit_route path.now }
{
    let hub = behind(b"/pits/", path)?;
    Some(Route::Pit { hub })
}

// Where a path leads.
fn route_to(path: &[u8]) -> Route<'_>
    ensures { route_as result ≡ route_of path.now }
{
    if path == b"/windows".as_slice() {
        return Route::Windows;
    }
    if let Some(route) = to_mart(path) {
        return route;
    }
    if let Some(route) = to_table(path) {
        return route;
    }
    match to_pit(path) {
        Some(route) => route,
        None => Route::NoRoute,
    }
}

// The date of a request, without bytes where it has none.
fn date_of(request: &Request) -> &[u8]
    ensures { result.now ≡ date_asked request.now }
{
    match &request.at {
        Some(date) => date.bytes(),
        None => b"",
    }
}

// What a request for the windows asks for.
fn asked_of_windows(request: &Request) -> Routed<'_>
    ensures { asked_as result ≡ windows_asked request.now }
{
    let method = request.method.bytes();
    if method == b"GET".as_slice() {
        Routed::Read(Query::Heads)
    } else if method == b"POST".as_slice() {
        Routed::Load {
            body: request.body.items(),
        }
    } else {
        Routed::NotAllowed {
            methods: Allowed::GetPost,
        }
    }
}

// What a request for a route asks for.
fn asked_there<'a>(request: &'a Request, route: Route<'a>) -> Routed<'a>
    ensures { asked_as result ≡ asked_at request.now (route_as route.entry) }
{
    let is_get = request.method.bytes() == b"GET".as_slice();
    match route {
        Route::Windows => asked_of_windows(request),
        Route::NoRoute => Routed::NotFound,
        _ if !is_get => Routed::NotAllowed {
            methods: Allowed::Get,
        },
        Route::Mart { word } => Routed::Read(Query::MartAt {
            word,
            date: date_of(request),
        }),
        Route::Table { name } => Routed::Read(Query::TableOf { name }),
        Route::Pit { hub } => Routed::Read(Query::PitAt {
            hub,
            date: date_of(request),
        }),
    }
}

/// What a request asks for.
pub(crate) fn asked_by(request: &Request) -> Routed<'_>
    ensures { asked_as result ≡ asked_of request.now }
{
    asked_there(request, route_to(request.path.bytes()))
}
