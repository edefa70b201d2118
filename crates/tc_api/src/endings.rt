//! How an exchange ends, and the status that says so.
ghost use Rattle.std.specs.Prelude.{◌≡◌};
ghost use Rattle.http.specs.StatusCode.{IsStatusCode};
ghost use Rattle.tc_api.specs.Endings.{is_done, refusal_number, status_number, status_of, status_of_refusal};

use tc_types::Refusal;

/// The statuses that the desk answers with (RFC 9110, section 15).
#[derive(Clone, Copy, Debug, PartialEq, Eq)]
pub enum Status {
    /// 200: what was asked was done.
    Fine,
    /// 400: the request is in no form that the desk reads.
    Bad,
    /// 403: a page that is not the desk's own sends it, or it calls the desk by another host.
    Forbidden,
    /// 404: nothing has this path, this number or this name.
    Missing,
    /// 405: the path is served, by another method.
    OtherMethod,
    /// 409: as the desk stands it cannot be done.
    Conflict,
    /// 413: the request is larger than the desk reads.
    Large,
    /// 503: memory or the database failed.
    Unavailable,
}

impl Status {
    /// The status code: three digits (RFC 9110, section 15).
    pub fn number(self) -> u16
        ensures value { result ≡ status_number self }
        ensures valid { IsStatusCode result }
    {
        match self {
            Status::Fine => 200,
            Status::Bad => 400,
            Status::Forbidden => 403,
            Status::Missing => 404,
            Status::OtherMethod => 405,
            Status::Conflict => 409,
            Status::Large => 413,
            Status::Unavailable => 503,
        }
    }
}

/// The status that goes with a refusal.
fn status_of_refusal(refusal: Refusal) -> Status
    ensures { result ≡ status_of_refusal refusal }
{
    match refusal {
        Refusal::BadText => Status::Bad,
        Refusal::UnknownRequest | Refusal::UnknownStack | Refusal::UnknownProcedure => {
            Status::Missing
        }
        Refusal::TooLong => Status::Large,
        Refusal::Memory
        | Refusal::Store
        | Refusal::Stopped
        | Refusal::ReadFault
        | Refusal::WriteFault => Status::Unavailable,
        _ => Status::Conflict,
    }
}

/// How an exchange ends.
#[derive(Clone, Copy, Debug, PartialEq, Eq)]
pub enum Ending {
    /// What was asked was done.
    Done,
    /// It was refused.
    Refused(Refusal),
    /// It was not let in.
    Foreign,
    /// Nothing is served at the path.
    NoPath,
    /// The path is served, by another method.
    OtherMethod,
}

impl Ending {
    /// The status that says it.
    pub fn status(self) -> Status
        ensures { result ≡ status_of self }
    {
        match self {
            Ending::Done => Status::Fine,
            Ending::Refused(refusal) => status_of_refusal(refusal),
            Ending::Foreign => Status::Forbidden,
            Ending::NoPath => Status::Missing,
            Ending::OtherMethod => Status::OtherMethod,
        }
    }

    /// Whether what was asked was done.
    pub fn is_done(self) -> bool
        ensures { result ≡ is_done self }
    {
        match self {
            Ending::Done => true,
            Ending::Refused(_) | Ending::Foreign | Ending::NoPath | Ending::OtherMethod => false,
        }
    }

    /// The number of the refusal: 0 where nothing was refused, and `BadText`'s for a request that is not let in, or a path or a method that is not served.
    pub fn refusal_number(self) -> u8
        ensures { result ≡ refusal_number self }
    {
        match self {
            Ending::Done => 0,
            Ending::Refused(refusal) => refusal.number(),
            Ending::Foreign | Ending::NoPath | Ending::OtherMethod => Refusal::BadText.number(),
        }
    }
}
