#![tactic(auto)]

// The demands at the desk, proved: laws alone. The statements stand in specs/.
