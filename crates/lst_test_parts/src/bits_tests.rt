//! Each kind of packed word, packed and unpacked.

use crate::same::same;
use lst_bits::{
    Encoding, Kind, Log, Start, State, full_mask, has_column, holds_number, latched, pack_begin,
    pack_encoding, pack_head, pack_index, pack_log, pack_pin, pack_posting, pack_start, pack_state,
    pack_time, pack_turn, slot, unpack_begin, unpack_encoding, unpack_head, unpack_index,
    unpack_log, unpack_pin, unpack_posting, unpack_start, unpack_state, unpack_time,
};

#[test]
fn the_second_transaction_of_session_1_has_start_word_67_and_log_word_33(rt: HostRuntime) {
    let start = Start::By {
        session: 1,
        number: 2,
    };
    let log = Log::By {
        session: 1,
        number: 2,
    };
    same(
        &rt,
        (pack_start(start), unpack_start(67)),
        (67, start),
        "start",
    );
    same(&rt, unpack_start(0), Start::Empty, "no start");
    same(&rt, (pack_log(log), unpack_log(33)), (33, log), "log");
}

#[test]
fn time_3_has_start_word_6_state_word_4_and_time_word_7(rt: HostRuntime) {
    let start = Start::At { time: 3 };
    let state = State::Committed { time: 3 };
    same(
        &rt,
        (pack_start(start), unpack_start(6)),
        (6, start),
        "start",
    );
    same(
        &rt,
        (pack_state(state), unpack_state(4)),
        (4, state),
        "state",
    );
    same(&rt, unpack_state(1), State::Closed, "closed");
    same(
        &rt,
        (pack_time(3, true), unpack_time(7)),
        (7, (3, true)),
        "time",
    );
}

#[test]
fn head_5_latched_has_word_11(rt: HostRuntime) {
    same(
        &rt,
        (pack_head(5, true), unpack_head(11)),
        (11, (5, true)),
        "latched",
    );
    same(&rt, unpack_head(10), (5, false), "free");
    same(&rt, latched(10), 11, "latched again");
}

#[test]
fn a_set_of_column_1_at_slot_7_has_encoding_459266(rt: HostRuntime) {
    let encoding = Encoding {
        mask: 2,
        kind: Kind::Set,
        slot: 7,
        nulls: 0,
    };
    same(
        &rt,
        (pack_encoding(encoding), unpack_encoding(459_266)),
        (459_266, encoding),
        "encoding",
    );
    same(&rt, has_column(encoding.mask, 1), true, "column 1");
    same(&rt, full_mask(8), 255, "mask of eight");
}

#[test]
fn a_set_of_column_1_to_null_at_slot_7_has_encoding_34013698(rt: HostRuntime) {
    let encoding = Encoding {
        mask: 2,
        kind: Kind::Set,
        slot: 7,
        nulls: 2,
    };
    same(
        &rt,
        (pack_encoding(encoding), unpack_encoding(34_013_698)),
        (34_013_698, encoding),
        "encoding",
    );
    same(&rt, slot(34_013_698), 7, "slot");
    same(&rt, holds_number(34_013_698, 1), false, "null");
    same(&rt, holds_number(459_266, 1), true, "number");
}

#[test]
fn epoch_4_has_pin_word_5(rt: HostRuntime) {
    same(&rt, (pack_pin(Some(4)), unpack_pin(5)), (5, Some(4)), "pin");
    same(
        &rt,
        (pack_begin(None), unpack_begin(1)),
        (0, Some(0)),
        "begin",
    );
    same(&rt, pack_turn(Some(2)), 3, "turn");
    same(
        &rt,
        (pack_index(Some(9)), unpack_index(10)),
        (10, Some(9)),
        "index",
    );
}

#[test]
fn the_tail_record_4097_has_posting_word_4097(rt: HostRuntime) {
    same(
        &rt,
        (pack_posting(Some(4097)), unpack_posting(4097)),
        (4097, Some(4097)),
        "posting",
    );
    same(&rt, unpack_posting(0), None, "no posting");
}
