//! The links that lead from one node.

ghost use Rattle.std.specs.Prelude.{◌≡◌, ◌<◌, ◌≤◌, nat_eq, length, All};
ghost use Rattle.std.specs.List.{prefix_len};
ghost use Rattle.std.specs.List.Sorted.{IsPartitionPoint};
ghost use Rattle.tb_twig.specs.Links.{IsRising, links_at, leading_from, starts_below, starts_from};

use crate::Link;

/// The links that lead from node n: they stand behind each other.
pub fn leading_from(links: &[Link], n: u32) -> &[Link]
    requires { IsRising links.now }
    ensures { result.now ≡ leading_from n links.now }
{
    let rest = &links[start_of(links, n)..];
    &rest[..run_len(rest, n)]
}

/// Where the links begin that lead from node n or a later one.
pub fn start_of(links: &[Link], n: u32) -> usize
    requires { IsRising links.now }
    ensures within { result ≤ length links.now }
    ensures point { IsPartitionPoint (starts_below n) (starts_from n) links.now result }
{
    links.partition_point(|link| link.above < n)
}

/// How many of the first links lead from node n.
pub fn run_len(links: &[Link], n: u32) -> usize
    ensures { result ≡ prefix_len (λ link. nat_eq link.above n) links.now }
{
    let mut len = 0;
    'links: for link in links {
        if link.above != n {
            return len;
        }
        len += 1;
    }
    len
}

/// The links of edge e.
pub fn links_of(links: &[Vec<Link>], e: usize) -> &[Link]
    requires within { e < length links.now }
    requires rise { All (λ ls. IsRising ls.items) links.now }
    ensures are { result.now ≡ links_at links.now e }
    ensures rises { IsRising result.now }
{
    links[e].as_slice()
}
