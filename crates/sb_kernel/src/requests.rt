// What a call asks for, made once from arguments that fit.
ghost use Rattle.std.specs.Prelude.{◌≡◌, ◌<◌, ◌^◌, true, nat_lt, option_map, Some, IfSome};
ghost use Rattle.sb_base.specs.Names.{is_name_of};
ghost use Rattle.sb_call.specs.Arguments.{fits, kind_at};
ghost use Rattle.sb_call.specs.declared.tags.CallTag.TheVariants as tag;
ghost use Rattle.sb_call.specs.declared.tags.ParamKind.TheVariants as kind;
ghost use Rattle.sb_handles.specs.Masks.{access_of, sharing_of};
ghost use Rattle.sb_kernel.specs.Requests.{is_proper, meant, number_at, request_of, units_at};

use bitflags::Flags;
use sb_call::{Arg, CallTag, fitting_args};
use sb_handles::{Access, Sharing};
use sb_services::{EventKind, FileRequest, PipeForm, PipeMode};

// What a call asks for. Strings are borrowed from its arguments.
pub(crate) enum Request<'a> {
    // A ping of a cookie and a text.
    Ping {
        cookie: u64,
        text: &'a [u16],
    },
    // Make or open a file or directory: file.create, and file.open.
    FileCreate {
        name: &'a [u16],
        request: FileRequest,
    },
    FileQuery {
        name: &'a [u16],
    },
    FileRename {
        name: &'a [u16],
        to: &'a [u16],
    },
    PipeCreate {
        name: &'a [u16],
        mode: PipeMode,
        form: PipeForm,
        instances: u64,
    },
    KeyCreate {
        name: &'a [u16],
        access: Access,
    },
    KeyOpen {
        name: &'a [u16],
        access: Access,
    },
    // Make or open an event of a kind, signaled at first or not.
    EventCreate {
        name: &'a [u16],
        kind: EventKind,
        initial: bool,
    },
    EventOpen {
        name: &'a [u16],
        access: Access,
    },
    HandleClose {
        handle: u64,
    },
}

// The number at a place of the arguments; 0 if none is there.
fn number_at(args: &[Arg], place: usize) -> u64
    ensures { result ≡ number_at args.now place }
{
    match args.get(place) {
        Some(Arg::Num(number)) => *number,
        _ => 0,
    }
}

// The string at a place of the arguments; empty if none is there.
fn units_at(args: &[Arg], place: usize) -> &[u16]
    ensures { result.now ≡ units_at args.now place }
{
    match args.get(place) {
        Some(Arg::Str(text)) => text.as_units(),
        _ => &[],
    }
}

// The name at a place of the arguments of a call that has one there.
#[tactic(auto, using(crate::proofs::Arguments::fitting_name))]
fn name_at(tag: CallTag, args: &[Arg], place: usize) -> &[u16]
    requires fits { fits tag args.now ≡ true }
    requires kind { kind_at tag place ≡ kind.Name }
    ensures units { result.now ≡ units_at args.now place }
    ensures name { is_name_of result.now ≡ true }
{
    fitting_args();
    units_at(args, place)
}

// The number at a place of the arguments of a call that has one below 2^32 there.
#[tactic(auto, using(crate::proofs::Arguments::fitting_number, crate::proofs::Arguments::fitting_bits))]
fn bits_at(tag: CallTag, args: &[Arg], place: usize) -> u32
    requires fits { fits tag args.now ≡ true }
    requires kind { kind_at tag place ≡ kind.Num }
    ensures number { result ≡ number_at args.now place }
    ensures small { nat_lt (number_at args.now place) (2 ^ 32) ≡ true }
{
    fitting_args();
    number_at(args, place) as u32
}

// The access at a place of the arguments of a call that has one there.
fn access_at(tag: CallTag, args: &[Arg], place: usize) -> Access
    requires fits { fits tag args.now ≡ true }
    requires kind { kind_at tag place ≡ kind.Num }
    ensures access { result ≡ access_of (number_at args.now place) }
    ensures narrow { nat_lt result.0 (2 ^ 32) ≡ true }
{
    Access::from_bits_retain(bits_at(tag, args, place))
}

// The sharing at a place of the arguments of a call that has one there.
fn sharing_at(tag: CallTag, args: &[Arg], place: usize) -> Sharing
    requires fits { fits tag args.now ≡ true }
    requires kind { kind_at tag place ≡ kind.Num }
    ensures sharing { result ≡ sharing_of (number_at args.now place) }
    ensures narrow { nat_lt result.0 (2 ^ 32) ≡ true }
{
    Sharing::from_bits_retain(bits_at(tag, args, place))
}

// What a file.create asks for.
fn file_create(args: &[Arg]) -> Option<Request<'_>>
    requires { fits tag.FileCreate args.now ≡ true }
    ensures request { option_map meant result ≡ request_of tag.FileCreate args.now }
    ensures proper { IfSome result (λ request. is_proper (meant request) ≡ true) }
{
    let name = name_at(CallTag::FileCreate, args, 0);
    let access = access_at(CallTag::FileCreate, args, 2);
    let sharing = sharing_at(CallTag::FileCreate, args, 3);
    let (attributes, disposition) = (number_at(args, 1), number_at(args, 4));
    let options = number_at(args, 5);
    let request = FileRequest::to_create(attributes, access, sharing, disposition, options)?;
    Some(Request::FileCreate { name, request })
}

// What a file.open asks for.
fn file_open(args: &[Arg]) -> Option<Request<'_>>
    requires { fits tag.FileOpen args.now ≡ true }
    ensures request { option_map meant result ≡ request_of tag.FileOpen args.now }
    ensures proper { IfSome result (λ request. is_proper (meant request) ≡ true) }
{
    let name = name_at(CallTag::FileOpen, args, 0);
    let access = access_at(CallTag::FileOpen, args, 1);
    let sharing = sharing_at(CallTag::FileOpen, args, 2);
    let request = FileRequest::to_open(access, sharing, number_at(args, 3))?;
    Some(Request::FileCreate { name, request })
}

// What a file.query asks for.
fn file_query(args: &[Arg]) -> Request<'_>
    requires { fits tag.FileQuery args.now ≡ true }
    ensures request { Some (meant result) ≡ request_of tag.FileQuery args.now }
    ensures proper { is_proper (meant result) ≡ true }
{
    Request::FileQuery {
        name: name_at(CallTag::FileQuery, args, 0),
    }
}

// What a file.rename asks for.
fn file_rename(args: &[Arg]) -> Request<'_>
    requires { fits tag.FileRename args.now ≡ true }
    ensures request { Some (meant result) ≡ request_of tag.FileRename args.now }
    ensures proper { is_proper (meant result) ≡ true }
{
    Request::FileRename {
        name: name_at(CallTag::FileRename, args, 0),
        to: name_at(CallTag::FileRename, args, 1),
    }
}

// What a pipe.create asks for.
fn pipe_create(args: &[Arg]) -> Option<Request<'_>>
    requires { fits tag.PipeCreate args.now ≡ true }
    ensures request { option_map meant result ≡ request_of tag.PipeCreate args.now }
    ensures proper { IfSome result (λ request. is_proper (meant request) ≡ true) }
{
    let name = name_at(CallTag::PipeCreate, args, 0);
    let mode = PipeMode::try_from(number_at(args, 1)).ok()?;
    let form = PipeForm::try_from(number_at(args, 2)).ok()?;
    Some(Request::PipeCreate {
        name,
        mode,
        form,
        instances: number_at(args, 3),
    })
}

// What a key.create asks for.
fn key_create(args: &[Arg]) -> Request<'_>
    requires { fits tag.KeyCreate args.now ≡ true }
    ensures request { Some (meant result) ≡ request_of tag.KeyCreate args.now }
    ensures proper { is_proper (meant result) ≡ true }
{
    Request::KeyCreate {
        name: name_at(CallTag::KeyCreate, args, 0),
        access: access_at(CallTag::KeyCreate, args, 1),
    }
}

// What a key.open asks for.
fn key_open(args: &[Arg]) -> Request<'_>
    requires { fits tag.KeyOpen args.now ≡ true }
    ensures request { Some (meant result) ≡ request_of tag.KeyOpen args.now }
    ensures proper { is_proper (meant result) ≡ true }
{
    Request::KeyOpen {
        name: name_at(CallTag::KeyOpen, args, 0),
        access: access_at(CallTag::KeyOpen, args, 1),
    }
}

// What an event.open asks for.
fn event_open(args: &[Arg]) -> Request<'_>
    requires { fits tag.EventOpen args.now ≡ true }
    ensures request { Some (meant result) ≡ request_of tag.EventOpen args.now }
    ensures proper { is_proper (meant result) ≡ true }
{
    Request::EventOpen {
        name: name_at(CallTag::EventOpen, args, 0),
        access: access_at(CallTag::EventOpen, args, 1),
    }
}

// What an event.create asks for.
fn event_create(args: &[Arg]) -> Option<Request<'_>>
    requires { fits tag.EventCreate args.now ≡ true }
    ensures request { option_map meant result ≡ request_of tag.EventCreate args.now }
    ensures proper { IfSome result (λ request. is_proper (meant request) ≡ true) }
{
    let name = name_at(CallTag::EventCreate, args, 0);
    let (kind, initial) = (number_at(args, 1), number_at(args, 2));
    if kind > 1 || initial > 1 {
        return None;
    }
    Some(Request::EventCreate {
        name,
        kind: EventKind::from(kind),
        initial: initial != 0,
    })
}

// What a call asks for. None if some argument is out of range, or some exclude each other.
pub(crate) fn request_of(tag: CallTag, args: &[Arg]) -> Option<Request<'_>>
    requires { fits tag args.now ≡ true }
    ensures request { option_map meant result ≡ request_of tag args.now }
    ensures proper { IfSome result (λ request. is_proper (meant request) ≡ true) }
{
    match tag {
        CallTag::Ping => Some(Request::Ping {
            cookie: number_at(args, 0),
            text: units_at(args, 1),
        }),
        CallTag::FileCreate => file_create(args),
        CallTag::FileOpen => file_open(args),
        CallTag::FileQuery => Some(file_query(args)),
        CallTag::FileRename => Some(file_rename(args)),
        CallTag::PipeCreate => pipe_create(args),
        CallTag::KeyCreate => Some(key_create(args)),
        CallTag::KeyOpen => Some(key_open(args)),
        CallTag::EventCreate => event_create(args),
        CallTag::EventOpen => Some(event_open(args)),
        CallTag::HandleClose => Some(Request::HandleClose {
            handle: number_at(args, 0),
        }),
    }
}
