// The objects of an operation, against those that the table has made so far.
#![tactic(auto)]

ghost use Rattle.std.specs.Prelude.{◌≡◌};
ghost use Rattle.rules.specs.Table.{kind_of, is_kind, mutex_fine, objects_fine};

use objects_calls::wait_of;
use rules::object::{Kind, OBJECTS, ObjectId};
use rules::table::{Call, Made, Op};

fn kind_of(call: Call) -> Kind
    ensures { result ≡ kind_of call }
{
    match call {
        Call::Mutex(_) => Kind::Mutex,
        Call::RwLock(_) => Kind::RwLock,
        Call::Condvar(_) => Kind::Condvar,
        Call::Notify(_) => Kind::Notify,
        Call::Channel(_) => Kind::Channel,
        Call::Arc(_) => Kind::Arc,
        Call::Cell(_) => Kind::Cell,
    }
}

// The object is there and of the kind.
#[tactic(auto, unfolding(rules::specs::Table::is_kind))]
fn is_kind(objects: [Made; OBJECTS], object: ObjectId, kind: Kind) -> bool
    ensures { result ≡ is_kind objects object kind }
{
    let there = objects
        .get(usize::from(object.0))
        .map_or(Kind::Nothing, |made| made.kind);
    there == kind
}

fn mutex_fine(objects: [Made; OBJECTS], wait: Option<ObjectId>) -> bool
    ensures { result ≡ mutex_fine objects wait }
{
    match wait {
        Some(m) => is_kind(objects, m, Kind::Mutex),
        None => true,
    }
}

// The objects that an operation is on are there and of its kinds: the condvar of a wait before its mutex.
#[tactic(auto, unfolding(rules::specs::Table::objects_fine))]
pub fn objects_fine(objects: [Made; OBJECTS], op: Op) -> bool
    ensures { result ≡ objects_fine objects op }
{
    is_kind(objects, op.object, kind_of(op.call)) && mutex_fine(objects, wait_of(op.call))
}
