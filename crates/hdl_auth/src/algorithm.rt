//! Hash functions and their digests.

ghost use Rattle.std.specs.Prelude.{◌≡◌};
ghost use Rattle.hdl_auth.specs.Digest.{octet_of, size_of, algorithm_of, octets_of};

/// A hash function for authenticating requests.
#[derive(Clone, Copy, Debug, PartialEq, Eq)]
pub enum Algorithm {
    Sha1,
    Sha256,
}

/// A digest and its hash function.
#[derive(Clone, Copy, Debug, PartialEq, Eq)]
pub enum Digest {
    Sha1([u8; 20]),
    Sha256([u8; 32]),
}

impl Algorithm {
    /// The octet of this hash function, which is sent before a digest.
    pub fn octet(self) -> u8
        ensures { result ≡ octet_of self }
    {
        match self {
            Algorithm::Sha1 => 2,
            Algorithm::Sha256 => 3,
        }
    }

    /// The length of its digests, in octets.
    pub fn size(self) -> usize
        ensures { result ≡ size_of self }
    {
        match self {
            Algorithm::Sha1 => 20,
            Algorithm::Sha256 => 32,
        }
    }
}

impl Digest {
    pub fn algorithm(&self) -> Algorithm
        ensures { result ≡ algorithm_of self.now }
    {
        match self {
            Digest::Sha1(_) => Algorithm::Sha1,
            Digest::Sha256(_) => Algorithm::Sha256,
        }
    }

    pub fn as_slice(&self) -> &[u8]
        ensures { result.now ≡ octets_of self.now }
    {
        match self {
            Digest::Sha1(octets) => octets,
            Digest::Sha256(octets) => octets,
        }
    }
}
