//! The tags of the messages, by the standard's field names.

pub const ACCOUNT: u32 = 1;

pub const AVG_PX: u32 = 6;

pub const BEGIN_SEQ_NO: u32 = 7;

pub const END_SEQ_NO: u32 = 16;

pub const EXEC_ID: u32 = 17;

pub const LAST_PX: u32 = 31;

pub const LAST_QTY: u32 = 32;

pub const MSG_SEQ_NUM: u32 = 34;

pub const NEW_SEQ_NO: u32 = 36;

pub const POSS_DUP_FLAG: u32 = 43;

pub const REF_SEQ_NUM: u32 = 45;

pub const SENDER_COMP_ID: u32 = 49;

pub const SENDING_TIME: u32 = 52;

pub const QUANTITY: u32 = 53;

pub const SIDE: u32 = 54;

pub const SYMBOL: u32 = 55;

pub const TARGET_COMP_ID: u32 = 56;

pub const TEXT: u32 = 58;

pub const ALLOC_ID: u32 = 70;

pub const ALLOC_TRANS_TYPE: u32 = 71;

pub const TRADE_DATE: u32 = 75;

pub const NO_ALLOCS: u32 = 78;

pub const ALLOC_ACCOUNT: u32 = 79;

pub const ALLOC_QTY: u32 = 80;

pub const ALLOC_STATUS: u32 = 87;

pub const ALLOC_REJ_CODE: u32 = 88;

pub const ENCRYPT_METHOD: u32 = 98;

pub const HEART_BT_INT: u32 = 108;

pub const TEST_REQ_ID: u32 = 112;

pub const ORIG_SENDING_TIME: u32 = 122;

pub const GAP_FILL_FLAG: u32 = 123;

pub const NO_EXECS: u32 = 124;

pub const RESET_SEQ_NUM_FLAG: u32 = 141;

pub const REF_TAG_ID: u32 = 371;

pub const REF_MSG_TYPE: u32 = 372;

pub const SESSION_REJECT_REASON: u32 = 373;

pub const BUSINESS_REJECT_REF_ID: u32 = 379;

pub const BUSINESS_REJECT_REASON: u32 = 380;

pub const TRADE_REPORT_TRANS_TYPE: u32 = 487;

pub const NO_SIDES: u32 = 552;

pub const TRADE_REPORT_ID: u32 = 571;

pub const TRADE_REPORT_REF_ID: u32 = 572;

pub const MATCH_STATUS: u32 = 573;

pub const NO_POSITIONS: u32 = 702;

pub const POS_TYPE: u32 = 703;

pub const LONG_QTY: u32 = 704;

pub const SHORT_QTY: u32 = 705;

pub const POS_REQ_ID: u32 = 710;

pub const CLEARING_BUSINESS_DATE: u32 = 715;

pub const POS_MAINT_RPT_ID: u32 = 721;

pub const POS_REQ_TYPE: u32 = 724;

pub const TOTAL_NUM_POS_REPORTS: u32 = 727;

pub const POS_REQ_RESULT: u32 = 728;

pub const POS_REQ_STATUS: u32 = 729;

pub const TRADE_REPORT_REJECT_REASON: u32 = 751;

pub const ALLOC_REPORT_ID: u32 = 755;

pub const ALLOC_REPORT_TYPE: u32 = 794;

pub const TRADE_REPORT_TYPE: u32 = 856;

pub const TRD_MATCH_ID: u32 = 880;

pub const TRD_RPT_STATUS: u32 = 939;

pub const DEFAULT_APPL_VER_ID: u32 = 1137;
