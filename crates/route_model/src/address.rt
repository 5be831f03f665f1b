//! Addresses of both families.

ghost use Rattle.std.specs.Prelude.{◌≡◌, length};
ghost use Rattle.route_model.specs.Octets.{AreOctets};
ghost use Rattle.route_model.specs.Address.{octets, family, wide, IsAddress};

/// An IPv4 or IPv6 address, by its octets in network order.
#[derive(Clone, Copy, Debug, PartialEq, Eq, PartialOrd, Ord)]
pub enum Address {
    V4([u8; 4]),
    V6([u8; 16]),
}

impl Address {
    ghost use Rattle.route_model.specs.inner.Codec.{wide_address};

    /// The version of IP: 4 or 6. (It is no address family number of RFC 4760.)
    pub fn family(&self) -> u8
        ensures family { result ≡ family self.now }
    {
        match self {
            Address::V4(_) => 4,
            Address::V6(_) => 6,
        }
    }

    /// The octets of the address: 4 or 16.
    pub fn as_slice(&self) -> &[u8]
        ensures octets { result.now ≡ octets self.now }
        ensures valid { IsAddress self.now }
    {
        match self {
            Address::V4(octets) => slice_of(octets),
            Address::V6(octets) => slice_of(octets),
        }
    }

    /// The sixteen octets of the address, those of an IPv4 address followed by zeros.
    pub fn wide(&self) -> [u8; 16]
        ensures wide { result ≡ wide self.now }
    {
        match self {
            Address::V4([a, b, c, d]) => [*a, *b, *c, *d, 0, 0, 0, 0, 0, 0, 0, 0, 0, 0, 0, 0],
            Address::V6(octets) => *octets,
        }
    }

    /// The address of this family whose wide octets are these, or none.
    pub(crate) fn from_wide(number: u8, octets: &[u8]) -> Option<Address>
        requires { length octets.now ≡ 16 }
        ensures { result ≡ wide_address number octets.now }
    {
        match number {
            4 => {
                let (front, rest) = octets.split_at(4);
                if rest == [0u8; 12].as_slice() {
                    Some(Address::V4([front[0], front[1], front[2], front[3]]))
                } else {
                    None
                }
            }
            6 => Some(Address::V6(<[u8; 16]>::try_from(octets).unwrap())),
            _ => None,
        }
    }
}

/// The octets of an array, which are as many as its type says.
pub(crate) fn slice_of<const N: usize>(octets: &[u8; N]) -> &[u8]
    ensures octets { result.now ≡ octets.now }
    ensures size { length octets.now ≡ N }
    ensures each { AreOctets octets.now }
{
    let slice = octets.as_slice();
    let _octets = each_octet(slice);
    slice
}

/// The count of the octets, each of which is one.
pub(crate) fn each_octet(octets: &[u8]) -> usize
    ensures { AreOctets octets.now }
{
    octets.len()
}
