ghost use Rattle.std.specs.Prelude.{◌≡◌};
ghost use Rattle.wd_url.specs.Url.{host_and_port, path_and_query};

use url::{Position, Url};

/// The host of a URL and, where its text has a port, `:` and that port: the value of a Host field
/// (RFC 9112, section 3.2). It is empty for a URL with no host.
pub fn host_and_port(url: &Url) -> &str
    ensures { result.now ≡ host_and_port url.now }
{
    url.slice(Position::BeforeHost, Position::AfterPort)
}

/// The path of a URL and, where it has a query, `?` and that query: the target of a request (RFC
/// 9112, section 3.2.1).
pub fn path_and_query(url: &Url) -> &str
    ensures { result.now ≡ path_and_query url.now }
{
    url.slice(Position::BeforePath, Position::AfterQuery)
}
