// A Modbus station on a serial line, in both frames: theorems only. The stations are modbus_rtu and modbus_ascii.
// Read specs/Statements.antt.
#![tactic(auto)]
