//! Whether those whom the tables name are persons, and not the desk itself.
ghost use Rattle.std.specs.Prelude.{◌≡◌, ◌↔◌, IfSome, IsTrue};
ghost use Rattle.std.specs.List.{AllByRecursion};
ghost use Rattle.tc_types.specs.Names.{IsPerson};
ghost use Rattle.tc_types.specs.Images.{rows_in};
ghost use Rattle.tc_book.specs.Persons.{NamesPersons};
ghost use Rattle.tc_book.specs.Sound.{book_of};

use tc_types::{
    Approval, BegunExecution, Image, LoadedProcedure, Name, Request, StackApproval, StepRecord,
    is_person,
};

/// A row that names somebody.
pub(crate) trait Naming {
    /// Whom it names are persons.
    ghost names: { Self → Type 0 };

    /// Whether all whom it names are persons.
    fn names_persons(&self) -> bool
        ensures { IsTrue result ↔ names self.now };
}

impl Naming for Request {
    ghost use Rattle.tc_types.specs.Names.{IsPerson};

    ghost names = { λ request. IsPerson request.author };

    fn names_persons(&self) -> bool {
        is_person(&self.author)
    }
}

impl Naming for Approval {
    ghost use Rattle.tc_types.specs.Names.{IsPerson};

    ghost names = { λ approval. IsPerson approval.person };

    fn names_persons(&self) -> bool {
        is_person(&self.person)
    }
}

impl Naming for StackApproval {
    ghost use Rattle.tc_types.specs.Names.{IsPerson};

    ghost names = { λ approval. IsPerson approval.person };

    fn names_persons(&self) -> bool {
        is_person(&self.person)
    }
}

impl Naming for LoadedProcedure {
    ghost use Rattle.tc_types.specs.Names.{IsPerson};

    ghost names = { λ procedure. IsPerson procedure.author };

    fn names_persons(&self) -> bool {
        is_person(&self.author)
    }
}

impl Naming for BegunExecution {
    ghost use Rattle.tc_types.specs.Names.{IsPerson};

    ghost names = { λ execution. IsPerson execution.by };

    fn names_persons(&self) -> bool {
        is_person(&self.by)
    }
}

/// Whether somebody who may be named is a person, where one is.
fn is_second(second: &Option<Name>) -> bool
    ensures { IsTrue result ↔ IfSome second.now IsPerson }
{
    match second {
        Some(second) => is_person(second),
        None => true,
    }
}

impl Naming for StepRecord {
    ghost use Rattle.tc_book.specs.Persons.{NamesRecorders};

    ghost names = { NamesRecorders };

    fn names_persons(&self) -> bool {
        is_person(&self.by) && is_second(&self.second)
    }
}

/// Whether all whom these rows name are persons.
fn name_persons<T: Naming>(rows: &[T]) -> bool
    ensures { IsTrue result ↔ AllByRecursion T.Naming.names rows.now }
{
    for row in rows {
        if !row.names_persons() {
            return false;
        }
    }
    true
}

/// Whether all whom the tables name, but for the moves, are persons. These are their requests.
pub(crate) fn names_persons(image: &Image, requests: &[Request]) -> bool
    requires { requests.now ≡ (book_of (rows_in image.now)).requests }
    ensures { IsTrue result ↔ NamesPersons (book_of (rows_in image.now)) }
{
    let of_requests = name_persons(requests);
    let of_approvals = name_persons(&image.approvals);
    let of_stacks = name_persons(&image.stack_approvals);
    let of_procedures = name_persons(&image.procedures);
    let of_executions = name_persons(&image.executions);
    let of_records = name_persons(&image.records);
    of_requests && of_approvals && of_stacks && of_procedures && of_executions && of_records
}
